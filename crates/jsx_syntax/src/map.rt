//! The steps between the list of a map and its body.

ghost use Rattle.std.specs.Prelude.{◌≡◌};
ghost use Rattle.jsx_syntax.specs.Steps as spec;
ghost use Rattle.jsx_syntax.specs.Steps.{Gives};

use crate::fault::Stop;
use crate::matching::{code_name, expect_sign, has_room_twice_within, has_room_within, is_sign};
use crate::name::Name;
use crate::operand::{deeper, fresh};
use crate::places::{in_map, inside};
use crate::stack::Stack;
use crate::state::{Frame, InMap, Inside, Mapping, State};
use jsx_lex::{Punctuator, Word};
use std::alloc::Global;

fn step_open(mapping: Mapping, stack: Stack<Frame>, word: Word) -> Result<State, Stop>
    ensures { Gives (spec.step_map_open mapping stack word) result }
{
    let room = has_room_within(mapping.pending.depth);
    expect_sign(
        room,
        Punctuator::OpenParen,
        word,
        in_map(InMap::Item(mapping), stack),
    )
}

fn step_first_name(mapping: Mapping, stack: Stack<Frame>, word: Word) -> Result<State, Stop>
    ensures { Gives (spec.step_map_item mapping stack word) result }
{
    let room = has_room_twice_within(mapping.pending.depth);
    let name = code_name(room, word)?;
    Ok(in_map(InMap::ItemEnd(mapping, name), stack))
}

fn step_name_end(
    mapping: Mapping,
    item: Name,
    stack: Stack<Frame>,
    word: Word,
) -> Result<State, Stop>
    ensures { Gives (spec.step_map_item_end mapping item stack word) result }
{
    if is_sign(&word, Punctuator::Comma) {
        return Ok(in_map(InMap::Number(mapping, item), stack));
    }
    let room = has_room_twice_within(mapping.pending.depth);
    expect_sign(
        room,
        Punctuator::CloseParen,
        word,
        in_map(InMap::Arrow(mapping, item, None), stack),
    )
}

fn step_second_name(
    mapping: Mapping,
    item: Name,
    stack: Stack<Frame>,
    word: Word,
) -> Result<State, Stop>
    ensures { Gives (spec.step_map_number mapping item stack word) result }
{
    let room = has_room_twice_within(mapping.pending.depth);
    let name = code_name(room, word)?;
    Ok(in_map(InMap::NumberEnd(mapping, item, name), stack))
}

fn step_names_end(
    mapping: Mapping,
    item: Name,
    number: Name,
    stack: Stack<Frame>,
    word: Word,
) -> Result<State, Stop>
    ensures { Gives (spec.step_map_number_end mapping item number stack word) result }
{
    let room = has_room_twice_within(mapping.pending.depth);
    expect_sign(
        room,
        Punctuator::CloseParen,
        word,
        in_map(InMap::Arrow(mapping, item, Some(number)), stack),
    )
}

fn step_arrow(
    alloc: Global,
    mapping: Mapping,
    item: Name,
    number: Option<Name>,
    mut stack: Stack<Frame>,
    word: Word,
) -> Result<State, Stop>
    ensures { Gives (spec.step_map_arrow mapping item number stack word) result }
{
    let room = has_room_within(mapping.pending.depth);
    let inner = fresh(alloc, true, deeper(mapping.pending.depth)?);
    stack.push(Frame::MapBody(mapping, item, number))?;
    expect_sign(
        room,
        Punctuator::Arrow,
        word,
        inside(Inside::Operand(inner), stack),
    )
}

pub(crate) fn step_in_map(
    alloc: Global,
    place: InMap,
    stack: Stack<Frame>,
    word: Word,
) -> Result<State, Stop>
    ensures { Gives (spec.step_in_map place stack word) result }
{
    match place {
        InMap::Open(mapping) => step_open(mapping, stack, word),
        InMap::Item(mapping) => step_first_name(mapping, stack, word),
        InMap::ItemEnd(mapping, item) => step_name_end(mapping, item, stack, word),
        InMap::Number(mapping, item) => step_second_name(mapping, item, stack, word),
        InMap::NumberEnd(mapping, item, number) => {
            step_names_end(mapping, item, number, stack, word)
        }
        InMap::Arrow(mapping, item, number) => step_arrow(
            alloc, mapping, item, number, stack, word,
        ),
    }
}
