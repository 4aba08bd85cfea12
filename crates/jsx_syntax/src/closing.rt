//! The end of an expression.

ghost use Rattle.std.specs.Prelude.{◌≡◌, ◌∷◌, [], Err, IfOk};
ghost use Rattle.jsx_syntax.specs.Steps as spec;
ghost use Rattle.jsx_syntax.specs.Steps.{Gives};
ghost use Rattle.jsx_syntax.specs.Trees as trees;
ghost use Rattle.jsx_syntax.specs.WordTests.{refusal_by};
ghost use Rattle.jsx_syntax.specs.declared.fault.Wanted.TheVariants.{Token};

use crate::builders::{choice, node};
use crate::expr::Expr;
use crate::fault::{Stop, Wanted};
use crate::file::{Component, Stmt};
use crate::matching::{
    expect, has_room, has_room_twice_within, has_room_within, has_room_within_after, is_sign,
    refusal,
};
use crate::name::{Entry, Name};
use crate::node::Node;
use crate::operand::{deeper, fresh};
use crate::part::{Dotted, Part};
use crate::places::{in_element, inside, outside, within};
use crate::stack::Stack;
use crate::state::{
    Conditional, Draft, ElementEnd, End, Frame, InElement, Inside, Mapping, Opened, OperandEnd,
    Outside, Pending, State, StatementEnd, Tag, Top, Within,
};
use jsx_lex::{Punctuator, Word};
use sqlite_items::{Boxed, Items};
use std::alloc::{AllocError, Global};

pub(crate) fn with_stmt(mut draft: Draft, stmt: Stmt) -> Result<Draft, AllocError>
    ensures { IfOk result (λ d. d ≡ spec.with_stmt draft stmt) }
{
    draft.stmts.push(stmt)?;
    Ok(draft)
}

pub(crate) fn with_attribute(mut tag: Tag, name: Name, value: Node) -> Result<Tag, AllocError>
    ensures { IfOk result (λ t. t ≡ spec.with_attribute tag name value) }
{
    tag.props.push(Entry { name, value })?;
    Ok(tag)
}

pub(crate) fn with_kid(mut opened: Opened, kid: Node) -> Result<Opened, AllocError>
    ensures { IfOk result (λ x. x ≡ spec.with_kid opened kid) }
{
    opened.kids.push(kid)?;
    Ok(opened)
}

/// The components up to a draft and its result.
fn components(draft: Draft, result_node: Node) -> Result<Items<Component>, AllocError>
    ensures { IfOk result (λ xs. xs ≡ spec.component_of draft result_node) }
{
    let Draft { signature, stmts } = draft;
    let mut components = signature.components;
    components.push(Component {
        name: signature.name,
        properties: signature.properties,
        stmts,
        result: result_node,
    })?;
    Ok(components)
}

/// The value that ends at this sign, where nothing else may.
fn ended_value(room: bool, sign: Punctuator, part: Part, word: &Word) -> Result<Expr, Stop>
    ensures { Gives (spec.ended_value room sign part word.now) result }
{
    if is_sign(word, sign) {
        value_in(part)
    } else {
        unended(room, part, word)
    }
}

/// The value that a part is.
fn value_in(part: Part) -> Result<Expr, Stop>
    ensures { Gives (spec.part_value part) result }
{
    match part {
        Part::Value(value) => Ok(value),
        Part::Other(_) => Err(Stop::Refused(Wanted::Token)),
    }
}

/// Why a part doesn't end at this word.
fn unended(room: bool, _part: Part, word: &Word) -> Result<Expr, Stop>
    ensures { Gives (Err (refusal_by room word.now)) result }
{
    Err(Stop::Refused(refusal(room, word)))
}

fn end_use(
    draft: Draft,
    name: Name,
    part: Part,
    stack: Stack<Frame>,
    word: &Word,
) -> Result<State, Stop>
    ensures { Gives (spec.end_use draft name part stack word.now) result }
{
    let resource = ended_value(has_room(2), Punctuator::CloseParen, part, word)?;
    let draft = with_stmt(draft, Stmt::Fetch { name, resource })?;
    Ok(within(Within::End(draft), stack))
}

fn end_bind(
    draft: Draft,
    name: Name,
    part: Part,
    stack: Stack<Frame>,
    word: &Word,
) -> Result<State, Stop>
    ensures { Gives (spec.end_bind draft name part stack word.now) result }
{
    let value = ended_value(has_room(1), Punctuator::Semicolon, part, word)?;
    let draft = with_stmt(draft, Stmt::Bind { name, value })?;
    Ok(within(Within::Start(draft), stack))
}

fn end_if(draft: Draft, part: Part, stack: Stack<Frame>, word: &Word) -> Result<State, Stop>
    ensures { Gives (spec.end_if draft part stack word.now) result }
{
    let test = ended_value(has_room(2), Punctuator::CloseParen, part, word)?;
    Ok(within(Within::ThrowWord(draft, test), stack))
}

fn end_throw(
    draft: Draft,
    test: Expr,
    part: Part,
    stack: Stack<Frame>,
    word: &Word,
) -> Result<State, Stop>
    ensures { Gives (spec.end_throw draft test part stack word.now) result }
{
    let digest = ended_value(has_room(1), Punctuator::Semicolon, part, word)?;
    let draft = with_stmt(draft, Stmt::Throw { test, digest })?;
    Ok(within(Within::Start(draft), stack))
}

fn end_return(draft: Draft, part: Part, stack: Stack<Frame>, word: &Word) -> Result<State, Stop>
    ensures { Gives (spec.end_return draft part stack word.now) result }
{
    let components = components(draft, node(part))?;
    expect(
        has_room(1),
        Punctuator::Semicolon,
        word,
        outside(Outside::BodyEnd(components), stack),
    )
}

fn after_part(alloc: Global, pending: Pending, part: Part, stack: Stack<Frame>) -> State
    ensures { result ≡ spec.after_part pending part stack }
{
    match part {
        Part::Value(of) => {
            let dotted = Dotted {
                of,
                names: Items::new(alloc),
            };
            inside(Inside::Value(pending, dotted), stack)
        }
        Part::Other(node) => inside(Inside::Node(pending, node), stack),
    }
}

fn end_parens(
    alloc: Global,
    pending: Pending,
    part: Part,
    stack: Stack<Frame>,
    word: &Word,
) -> Result<State, Stop>
    ensures { Gives (spec.end_parens pending part stack word.now) result }
{
    let room = has_room_within_after(pending.depth, pending.nots);
    expect(
        room,
        Punctuator::CloseParen,
        word,
        after_part(alloc, pending, part, stack),
    )
}

fn end_yes(
    alloc: Global,
    conditional: Conditional,
    part: Part,
    mut stack: Stack<Frame>,
    word: &Word,
) -> Result<State, Stop>
    ensures { Gives (spec.end_yes conditional part stack word.now) result }
{
    let room = has_room_within(conditional.depth);
    let inner = fresh(alloc, conditional.place, deeper(conditional.depth)?);
    stack.push(Frame::No(conditional, part))?;
    expect(
        room,
        Punctuator::Colon,
        word,
        inside(Inside::Operand(inner), stack),
    )
}

fn end_item(
    pending: Pending,
    mut items: Items<Node>,
    part: Part,
    stack: Stack<Frame>,
    word: &Word,
) -> Result<State, Stop>
    ensures { Gives (spec.end_item pending items part stack word.now) result }
{
    items.push(node(part))?;
    if is_sign(word, Punctuator::Comma) {
        Ok(inside(Inside::ArrayNext(pending, items), stack))
    } else if is_sign(word, Punctuator::CloseBracket) {
        Ok(inside(Inside::Node(pending, Node::Array(items)), stack))
    } else {
        Err(Stop::Refused(refusal(has_room_within(pending.depth), word)))
    }
}

fn map(
    alloc: Global,
    list: Expr,
    item: Name,
    number: Option<Name>,
    body: Part,
) -> Result<Node, AllocError>
    ensures { IfOk result (λ n. n ≡ spec.map_node list item number body) }
{
    Ok(Node::Map {
        list,
        item,
        number,
        body: Boxed::new(alloc, node(body))?,
    })
}

fn end_map(
    alloc: Global,
    mapping: Mapping,
    item: Name,
    number: Option<Name>,
    part: Part,
    stack: Stack<Frame>,
    word: &Word,
) -> Result<State, Stop>
    ensures { Gives (spec.end_map mapping item number part stack word.now) result }
{
    let Mapping { pending, list } = mapping;
    let room = has_room_within(pending.depth);
    let node = map(alloc, list, item, number, part)?;
    expect(
        room,
        Punctuator::CloseParen,
        word,
        inside(Inside::Node(pending, node), stack),
    )
}

fn end_attribute(
    tag: Tag,
    name: Name,
    part: Part,
    stack: Stack<Frame>,
    word: &Word,
) -> Result<State, Stop>
    ensures { Gives (spec.end_attribute tag name part stack word.now) result }
{
    let room = has_room_twice_within(tag.depth);
    let tag = with_attribute(tag, name, node(part))?;
    expect(
        room,
        Punctuator::CloseBrace,
        word,
        in_element(InElement::Attributes(tag), stack),
    )
}

fn end_child(opened: Opened, part: Part, stack: Stack<Frame>, word: &Word) -> Result<State, Stop>
    ensures { Gives (spec.end_child opened part stack word.now) result }
{
    let room = has_room_twice_within(opened.depth);
    let opened = with_kid(opened, node(part))?;
    expect(
        room,
        Punctuator::CloseBrace,
        word,
        in_element(InElement::Children(opened), stack),
    )
}

/// Puts a frame back that ends nothing. To let it go by itself is to take it apart variant by variant.
pub(crate) fn put_back(frame: Frame, mut stack: Stack<Frame>) -> Result<State, Stop>
    ensures { Gives (Err Token) result }
{
    stack.push(frame)?;
    Err(Stop::Refused(Wanted::Token))
}

/// The step where an expression of a statement ends.
fn close_statement(
    end: StatementEnd,
    part: Part,
    stack: Stack<Frame>,
    word: &Word,
) -> Result<State, Stop>
    ensures { Gives (spec.close_statement end part stack word.now) result }
{
    match end {
        StatementEnd::Use(draft, name) => end_use(draft, name, part, stack, word),
        StatementEnd::Bind(draft, name) => end_bind(draft, name, part, stack, word),
        StatementEnd::If(draft) => end_if(draft, part, stack, word),
        StatementEnd::Throw(draft, test) => end_throw(draft, test, part, stack, word),
        StatementEnd::Return(draft) => end_return(draft, part, stack, word),
    }
}

/// The step where a part of an operand ends.
fn close_operand(
    alloc: Global,
    end: OperandEnd,
    part: Part,
    stack: Stack<Frame>,
    word: &Word,
) -> Result<State, Stop>
    ensures { Gives (spec.close_operand end part stack word.now) result }
{
    match end {
        OperandEnd::Parens(pending) => end_parens(alloc, pending, part, stack, word),
        OperandEnd::Yes(conditional) => end_yes(alloc, conditional, part, stack, word),
        OperandEnd::Item(pending, items) => end_item(pending, items, part, stack, word),
        OperandEnd::MapBody(mapping, item, number) => {
            end_map(alloc, mapping, item, number, part, stack, word)
        }
    }
}

/// The step where a value in braces ends.
fn close_element(
    end: ElementEnd,
    part: Part,
    stack: Stack<Frame>,
    word: &Word,
) -> Result<State, Stop>
    ensures { Gives (spec.close_element end part stack word.now) result }
{
    match end {
        ElementEnd::Attribute(tag, name) => end_attribute(tag, name, part, stack, word),
        ElementEnd::Child(opened) => end_child(opened, part, stack, word),
    }
}

/// The step where the innermost frame's expression or node ends.
fn close(
    alloc: Global,
    end: End,
    part: Part,
    stack: Stack<Frame>,
    word: &Word,
) -> Result<State, Stop>
    ensures { Gives (spec.close_end end part stack word.now) result }
{
    match end {
        End::Statement(end) => close_statement(end, part, stack, word),
        End::Operand(end) => close_operand(alloc, end, part, stack, word),
        End::Element(end) => close_element(end, part, stack, word),
        End::Other(frame) => put_back(frame, stack),
    }
}

fn top_of(frame: Frame) -> Top
    ensures { result ≡ spec.top_of frame }
{
    match frame {
        Frame::No(conditional, yes) => Top::Last(conditional, yes),
        Frame::Use(draft, name) => Top::End(End::Statement(StatementEnd::Use(draft, name))),
        Frame::Bind(draft, name) => Top::End(End::Statement(StatementEnd::Bind(draft, name))),
        Frame::If(draft) => Top::End(End::Statement(StatementEnd::If(draft))),
        Frame::Throw(draft, test) => Top::End(End::Statement(StatementEnd::Throw(draft, test))),
        Frame::Return(draft) => Top::End(End::Statement(StatementEnd::Return(draft))),
        Frame::Parens(pending) => Top::End(End::Operand(OperandEnd::Parens(pending))),
        Frame::Yes(conditional) => Top::End(End::Operand(OperandEnd::Yes(conditional))),
        Frame::Item(pending, items) => Top::End(End::Operand(OperandEnd::Item(pending, items))),
        Frame::MapBody(mapping, item, number) => {
            Top::End(End::Operand(OperandEnd::MapBody(mapping, item, number)))
        }
        Frame::Attribute(tag, name) => Top::End(End::Element(ElementEnd::Attribute(tag, name))),
        Frame::Child(opened) => Top::End(End::Element(ElementEnd::Child(opened))),
        Frame::Operand(pending) => Top::End(End::Other(Frame::Operand(pending))),
        Frame::Kid(opened) => Top::End(End::Other(Frame::Kid(opened))),
    }
}

/// The step where an expression or a node ends, and with it the conditionals whose last part it is.
pub(crate) fn finish(
    alloc: Global,
    part: Part,
    stack: Stack<Frame>,
    word: &Word,
) -> Result<State, Stop>
    ensures { Gives (spec.finish part stack word.now) result }
{
    let mut part = part;
    let mut stack = stack;
    'conditionals: while let Some(frame) = stack.pop() {
        match top_of(frame) {
            Top::Last(conditional, yes) => {
                part = choice(alloc, conditional.test, yes, part)?;
            }
            Top::End(end) => return close(alloc, end, part, stack, word),
        }
    }
    Err(Stop::Refused(Wanted::Token))
}
