//! The strings of Code.

ghost use Rattle.std.specs.Prelude.{◌≡◌, ◌+◌, ◌<◌, ◌≤◌, length, IfSome, OnOk, ◌++◌};
ghost use Rattle.jsx_lex.specs.Reading as spec;
ghost use Rattle.jsx_lex.specs.StringParts.{escape_value};
ghost use Rattle.jsx_lex.specs.PartBytes.{bytes_of};

use crate::reference::push_character;
use std::alloc::AllocError;

/// What a part of a string stands for.
#[derive(Clone, Copy)]
pub(crate) enum Meaning {
    Byte(u8),
    Character(char),
}

/// A part of a string, and how many bytes spell it.
#[derive(Clone, Copy)]
pub(crate) struct Part {
    pub(crate) length: usize,
    pub(crate) meaning: Meaning,
}

/// The part at the front of a string that has this quote, or `None` at its end and where nothing may stand.
pub(crate) fn part_at(quote: u8, rest: &[u8]) -> Option<Part>
    ensures part { result ≡ spec.part_at quote rest.now }
    ensures within { IfSome result (λ p. (0 < p.length) × (p.length ≤ length rest.now)) }
{
    let (&first, more) = rest.split_first()?;
    if first == quote || first == b'\n' {
        None
    } else if first == b'\\' {
        escape_at(more)
    } else {
        Some(Part {
            length: 1,
            meaning: Meaning::Byte(first),
        })
    }
}

fn escape_at(rest: &[u8]) -> Option<Part>
    ensures part { result ≡ spec.escape_at rest.now }
    ensures within { IfSome result (λ p. (0 < p.length) × (p.length ≤ length rest.now + 1)) }
{
    let (&letter, more) = rest.split_first()?;
    if letter == b'u' {
        return unicode_at(more);
    }
    let value = escape_value(letter)?;
    Some(Part {
        length: 2,
        meaning: Meaning::Byte(value),
    })
}

fn escape_value(letter: u8) -> Option<u8>
    ensures { result ≡ escape_value letter }
{
    match letter {
        b'\\' => Some(b'\\'),
        b'"' => Some(b'"'),
        b'\'' => Some(b'\''),
        b'n' => Some(b'\n'),
        b'r' => Some(b'\r'),
        b't' => Some(b'\t'),
        _ => None,
    }
}

fn unicode_at(rest: &[u8]) -> Option<Part>
    ensures part { result ≡ spec.unicode_at rest.now }
    ensures within { IfSome result (λ p. (0 < p.length) × (p.length ≤ length rest.now + 2)) }
{
    let (&a, rest) = rest.split_first()?;
    let (&b, rest) = rest.split_first()?;
    let (&c, rest) = rest.split_first()?;
    let (&d, _) = rest.split_first()?;
    let code = hex_value(a, b, c, d)?;
    let character = char::from_u32(code)?;
    Some(Part {
        length: 6,
        meaning: Meaning::Character(character),
    })
}

fn hex_value(a: u8, b: u8, c: u8, d: u8) -> Option<u32>
    ensures { result ≡ spec.hex_at a b c d }
{
    let a = (a as char).to_digit(16)?;
    let b = (b as char).to_digit(16)?;
    let c = (c as char).to_digit(16)?;
    let d = (d as char).to_digit(16)?;
    Some(((a * 16 + b) * 16 + c) * 16 + d)
}

/// The length of a string after its first quote, with the quote at its end.
pub(crate) fn string_len(quote: u8, rest: &[u8]) -> Option<usize>
    ensures length { result ≡ spec.string_len quote 0 rest.now }
    ensures within { IfSome result (λ n. n ≤ length rest.now) }
{
    let mut at = 0;
    'parts: while at < rest.len() {
        if rest[at] == quote {
            return Some(at + 1);
        }
        let part = part_at(quote, &rest[at..])?;
        at += part.length;
    }
    None
}

/// Puts what a part stands for at the end.
pub(crate) fn push_meaning(out: &mut Vec<u8>, meaning: Meaning) -> Result<(), AllocError>
    ensures { OnOk result (out.new.items ≡ out.old.items ++ bytes_of meaning) }
{
    match meaning {
        Meaning::Byte(byte) => {
            out.push(byte)?;
        }
        Meaning::Character(character) => push_character(out, character)?,
    }
    Ok(())
}
