//! Where a text or an attribute's value stands between its bytes: UTF-8 and the five replacements.

ghost use Rattle.std.specs.Prelude.{◌≡◌, ◌<◌, drop, length};
ghost use Rattle.html_read.specs.Machine.{char_start, starts_char, next_within, tail_after, start_after, entity_after, place_after};

use crate::words::{after, begins_entity, is_entity};

/// What a character still wants: so many bytes, or a byte of a smaller range and then others.
#[derive(Clone, Copy, Debug, PartialEq, Eq, Drop)]
pub enum Tail {
    One,
    Two,
    Three,
    AfterE0,
    AfterEd,
    AfterF0,
    AfterF4,
}

/// Between characters, within one, or within a replacement that begins at `start` of its token.
#[derive(Clone, Copy, Debug, PartialEq, Eq, Drop)]
pub enum Place {
    Whole,
    Char(Tail),
    Entity { start: usize },
}

/// Why a byte does not go on with a text.
#[derive(Clone, Copy, Debug, PartialEq, Eq, Drop)]
pub enum RunFault {
    /// One of `"`, `'`, `<` and `>`.
    Byte,
    Entity,
    Utf8,
}

fn char_start(byte: u8) -> Result<Place, RunFault>
    ensures { result ≡ char_start byte }
{
    match byte {
        0..=0xC1 => Err(RunFault::Utf8),
        0xC2..=0xDF => Ok(Place::Char(Tail::One)),
        0xE0 => Ok(Place::Char(Tail::AfterE0)),
        0xED => Ok(Place::Char(Tail::AfterEd)),
        0xE1..=0xEF => Ok(Place::Char(Tail::Two)),
        0xF0 => Ok(Place::Char(Tail::AfterF0)),
        0xF1..=0xF3 => Ok(Place::Char(Tail::Three)),
        0xF4 => Ok(Place::Char(Tail::AfterF4)),
        _ => Err(RunFault::Utf8),
    }
}

fn next_within(low: u8, high: u8, byte: u8, place: Place) -> Result<Place, RunFault>
    ensures { result ≡ next_within low high byte place }
{
    if low <= byte && byte < high {
        Ok(place)
    } else {
        Err(RunFault::Utf8)
    }
}

fn tail_after(tail: Tail, byte: u8) -> Result<Place, RunFault>
    ensures { result ≡ tail_after tail byte }
{
    match tail {
        Tail::One => next_within(0x80, 0xC0, byte, Place::Whole),
        Tail::Two => next_within(0x80, 0xC0, byte, Place::Char(Tail::One)),
        Tail::Three => next_within(0x80, 0xC0, byte, Place::Char(Tail::Two)),
        Tail::AfterE0 => next_within(0xA0, 0xC0, byte, Place::Char(Tail::One)),
        Tail::AfterEd => next_within(0x80, 0xA0, byte, Place::Char(Tail::One)),
        Tail::AfterF0 => next_within(0x90, 0xC0, byte, Place::Char(Tail::Two)),
        Tail::AfterF4 => next_within(0x80, 0x90, byte, Place::Char(Tail::Two)),
    }
}

fn start_after(len: usize, byte: u8) -> Result<Place, RunFault>
    requires { 0 < len }
    ensures { result ≡ start_after len byte }
{
    match byte {
        b'&' => Ok(Place::Entity { start: len - 1 }),
        b'"' | b'\'' | b'<' | b'>' => Err(RunFault::Byte),
        0..=0x7F => Ok(Place::Whole),
        _ => char_start(byte),
    }
}

fn entity_after(start: usize, entity: &[u8], byte: u8) -> Result<Place, RunFault>
    ensures { result ≡ entity_after start entity.now byte }
{
    if is_entity(entity) {
        Ok(Place::Whole)
    } else if begins_entity(entity) {
        Ok(Place::Entity { start })
    } else if byte < 0x80 || char_start(byte).is_ok() {
        Err(RunFault::Entity)
    } else {
        Err(RunFault::Utf8)
    }
}

/// The place after a byte, the last one of the token so far.
pub fn place_after(place: Place, token: &[u8], byte: u8) -> Result<Place, RunFault>
    requires { 0 < length token.now }
    ensures { result ≡ place_after place token.now byte }
{
    match place {
        Place::Whole => start_after(token.len(), byte),
        Place::Char(tail) => tail_after(tail, byte),
        Place::Entity { start } => entity_after(start, after(token, start), byte),
    }
}
