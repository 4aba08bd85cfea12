//! The steps outside expressions.

ghost use Rattle.std.specs.Prelude.{◌≡◌, IfOk};
ghost use Rattle.jsx_syntax.specs.Steps as spec;
ghost use Rattle.jsx_syntax.specs.Steps.{Gives};

use crate::expr::Expr;
use crate::fault::Stop;
use crate::file::Component;
use crate::matching::{code_name, expect_name, expect_sign, has_room, is_sign, is_word};
use crate::name::Name;
use crate::operand::{fresh, step_operand};
use crate::places::{inside, outside, within};
use crate::stack::Stack;
use crate::state::{Draft, Frame, Inside, Outside, Signature, State, Within};
use jsx_lex::{Punctuator, Word};
use sqlite_items::Items;
use std::alloc::{AllocError, Global};

fn with_property(mut signature: Signature, name: Name) -> Result<Signature, AllocError>
    ensures { IfOk result (λ x. x ≡ spec.with_property signature name) }
{
    signature.properties.push(name)?;
    Ok(signature)
}

fn step_name(
    alloc: Global,
    components: Items<Component>,
    stack: Stack<Frame>,
    word: Word,
) -> Result<State, Stop>
    ensures { Gives (spec.step_component_name components stack word) result }
{
    let name = code_name(has_room(0), word)?;
    let signature = Signature {
        components,
        name,
        properties: Items::new(alloc),
    };
    Ok(outside(Outside::Open(signature), stack))
}

fn step_properties(signature: Signature, stack: Stack<Frame>, word: Word) -> Result<State, Stop>
    ensures { Gives (spec.step_properties signature stack word) result }
{
    if is_sign(&word, Punctuator::OpenBrace) {
        Ok(outside(Outside::FirstProperty(signature), stack))
    } else {
        expect_sign(
            has_room(1),
            Punctuator::CloseParen,
            word,
            outside(Outside::Body(signature), stack),
        )
    }
}

fn step_property(signature: Signature, stack: Stack<Frame>, word: Word) -> Result<State, Stop>
    ensures { Gives (spec.step_property signature stack word) result }
{
    let name = code_name(has_room(2), word)?;
    let signature = with_property(signature, name)?;
    Ok(outside(Outside::PropertyEnd(signature), stack))
}

fn step_first_property(signature: Signature, stack: Stack<Frame>, word: Word) -> Result<State, Stop>
    ensures { Gives (spec.step_first_property signature stack word) result }
{
    if is_sign(&word, Punctuator::CloseBrace) {
        Ok(outside(Outside::Close(signature), stack))
    } else {
        step_property(signature, stack, word)
    }
}

fn step_property_end(signature: Signature, stack: Stack<Frame>, word: Word) -> Result<State, Stop>
    ensures { Gives (spec.step_property_end signature stack word) result }
{
    if is_sign(&word, Punctuator::Comma) {
        Ok(outside(Outside::NextProperty(signature), stack))
    } else {
        expect_sign(
            has_room(2),
            Punctuator::CloseBrace,
            word,
            outside(Outside::Close(signature), stack),
        )
    }
}

fn step_body(
    alloc: Global,
    signature: Signature,
    stack: Stack<Frame>,
    word: Word,
) -> Result<State, Stop>
    ensures { Gives (spec.step_body signature stack word) result }
{
    let draft = Draft {
        signature,
        stmts: Items::new(alloc),
    };
    expect_sign(
        has_room(0),
        Punctuator::OpenBrace,
        word,
        within(Within::Start(draft), stack),
    )
}

pub(crate) fn step_outside(
    alloc: Global,
    place: Outside,
    stack: Stack<Frame>,
    word: Word,
) -> Result<State, Stop>
    ensures { Gives (spec.step_outside place stack word) result }
{
    match place {
        Outside::File(components) => {
            expect_name(b"function", word, outside(Outside::Name(components), stack))
        }
        Outside::Name(components) => step_name(alloc, components, stack, word),
        Outside::Open(signature) => {
            expect_sign(
                has_room(0),
                Punctuator::OpenParen,
                word,
                outside(Outside::Properties(signature), stack),
            )
        }
        Outside::Properties(signature) => step_properties(signature, stack, word),
        Outside::FirstProperty(signature) => step_first_property(signature, stack, word),
        Outside::NextProperty(signature) => step_property(signature, stack, word),
        Outside::PropertyEnd(signature) => step_property_end(signature, stack, word),
        Outside::Close(signature) => {
            expect_sign(
                has_room(1),
                Punctuator::CloseParen,
                word,
                outside(Outside::Body(signature), stack),
            )
        }
        Outside::Body(signature) => step_body(alloc, signature, stack, word),
        Outside::BodyEnd(components) => {
            expect_sign(
                has_room(1),
                Punctuator::CloseBrace,
                word,
                outside(Outside::File(components), stack),
            )
        }
    }
}

fn step_return(
    alloc: Global,
    draft: Draft,
    mut stack: Stack<Frame>,
    word: Word,
) -> Result<State, Stop>
    ensures { Gives (spec.step_return draft stack word) result }
{
    stack.push(Frame::Return(draft))?;
    expect_name(
        b"return",
        word,
        inside(Inside::Operand(fresh(alloc, true, 1)), stack),
    )
}

fn step_start(alloc: Global, draft: Draft, stack: Stack<Frame>, word: Word) -> Result<State, Stop>
    ensures { Gives (spec.step_start draft stack word) result }
{
    if is_word(&word, b"const") {
        Ok(within(Within::ConstName(draft), stack))
    } else if is_word(&word, b"if") {
        Ok(within(Within::IfOpen(draft), stack))
    } else {
        step_return(alloc, draft, stack, word)
    }
}

fn step_const_name(draft: Draft, stack: Stack<Frame>, word: Word) -> Result<State, Stop>
    ensures { Gives (spec.step_const_name draft stack word) result }
{
    let name = code_name(has_room(1), word)?;
    Ok(within(Within::ConstEquals(draft, name), stack))
}

fn step_const_value(
    alloc: Global,
    draft: Draft,
    name: Name,
    mut stack: Stack<Frame>,
    word: Word,
) -> Result<State, Stop>
    ensures { Gives (spec.step_const_value draft name stack word) result }
{
    if is_word(&word, b"use") {
        return Ok(within(Within::UseOpen(draft, name), stack));
    }
    stack.push(Frame::Bind(draft, name))?;
    step_operand(alloc, fresh(alloc, false, 1), stack, word)
}

fn step_use(
    alloc: Global,
    draft: Draft,
    name: Name,
    mut stack: Stack<Frame>,
    word: Word,
) -> Result<State, Stop>
    ensures { Gives (spec.step_use draft name stack word) result }
{
    stack.push(Frame::Use(draft, name))?;
    expect_sign(
        has_room(1),
        Punctuator::OpenParen,
        word,
        inside(Inside::Operand(fresh(alloc, false, 2)), stack),
    )
}

fn step_if(alloc: Global, draft: Draft, mut stack: Stack<Frame>, word: Word) -> Result<State, Stop>
    ensures { Gives (spec.step_if draft stack word) result }
{
    stack.push(Frame::If(draft))?;
    expect_sign(
        has_room(1),
        Punctuator::OpenParen,
        word,
        inside(Inside::Operand(fresh(alloc, false, 2)), stack),
    )
}

fn step_throw(
    alloc: Global,
    draft: Draft,
    test: Expr,
    mut stack: Stack<Frame>,
    word: Word,
) -> Result<State, Stop>
    ensures { Gives (spec.step_throw draft test stack word) result }
{
    stack.push(Frame::Throw(draft, test))?;
    expect_name(
        b"throw",
        word,
        inside(Inside::Operand(fresh(alloc, false, 1)), stack),
    )
}

pub(crate) fn step_within(
    alloc: Global,
    place: Within,
    stack: Stack<Frame>,
    word: Word,
) -> Result<State, Stop>
    ensures { Gives (spec.step_within place stack word) result }
{
    match place {
        Within::Start(draft) => step_start(alloc, draft, stack, word),
        Within::ConstName(draft) => step_const_name(draft, stack, word),
        Within::ConstEquals(draft, name) => {
            expect_sign(
                has_room(1),
                Punctuator::Assign,
                word,
                within(Within::ConstValue(draft, name), stack),
            )
        }
        Within::ConstValue(draft, name) => step_const_value(alloc, draft, name, stack, word),
        Within::UseOpen(draft, name) => step_use(alloc, draft, name, stack, word),
        Within::End(draft) => {
            expect_sign(
                has_room(1),
                Punctuator::Semicolon,
                word,
                within(Within::Start(draft), stack),
            )
        }
        Within::IfOpen(draft) => step_if(alloc, draft, stack, word),
        Within::ThrowWord(draft, test) => step_throw(alloc, draft, test, stack, word),
    }
}
