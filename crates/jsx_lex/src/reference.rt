//! Character references.

ghost use Rattle.std.specs.Prelude.{◌≡◌, ℕ, ◌<◌, ◌≤◌, ◌+◌, ◌⊎◌, List, length, map, drop, IfSome, IfOk, OnOk, ◌++◌, encode_utf8, find, option_map, if◌then◌else◌};
ghost use Rattle.std.specs.List.{prefix_len};
ghost use Rattle.std.specs.Char.{is_digit};
ghost use Rattle.std.specs.Str.Parse.{digits_value, AllDigits};
ghost use lib.Utf8.{scalar};
ghost use Rattle.jsx_lex.specs.References as spec;
ghost use Rattle.jsx_lex.specs.Characters.{begins};
ghost use Rattle.jsx_lex.specs.ReferenceRows.{row_of};

use crate::characters::{Class, run_len};
use std::alloc::AllocError;
use std::str;

/// A name of a character, as it follows an `&`.
#[derive(Clone, Copy)]
pub(crate) struct ReferenceName {
    bytes: &'static [u8],
    character: char,
}

static REFERENCE_NAMES: [ReferenceName; 6] = [
    ReferenceName {
        bytes: b"amp;",
        character: '&',
    },
    ReferenceName {
        bytes: b"lt;",
        character: '<',
    },
    ReferenceName {
        bytes: b"gt;",
        character: '>',
    },
    ReferenceName {
        bytes: b"quot;",
        character: '"',
    },
    ReferenceName {
        bytes: b"apos;",
        character: '\'',
    },
    ReferenceName {
        bytes: b"nbsp;",
        character: '\u{a0}',
    },
];

/// The character that an `&` and this text begin with, and how many bytes spell it.
pub(crate) fn reference_at(rest: &[u8]) -> Option<(char, usize)>
    ensures found { result ≡ spec.reference_at rest.now }
    ensures within { IfSome result (λ r. (0 < r.1) × (r.1 ≤ 1 + length rest.now)) }
{
    if rest.starts_with(b"#x") {
        numeric_reference(16, 3, rest.split_at(2).1)
    } else if rest.starts_with(b"#") {
        numeric_reference(10, 2, rest.split_at(1).1)
    } else {
        named_reference(rest)
    }
}

#[tactic(auto, unfolding(crate::specs::References::reference_names))]
fn named_reference(rest: &[u8]) -> Option<(char, usize)>
    ensures found { result ≡ spec.named_reference rest.now }
    ensures within { IfSome result (λ r. (0 < r.1) × (r.1 ≤ 1 + length rest.now)) }
{
    first_name(&REFERENCE_NAMES, rest)
}

/// The character of the first of the names with which the text begins.
fn first_name(names: &[ReferenceName], rest: &[u8]) -> Option<(char, usize)>
    ensures within { IfSome result (λ r. (0 < r.1) × (r.1 ≤ 1 + length rest.now)) }
    ensures found { result ≡ option_map (λ (r : List ℕ × ℕ). (r.1, 1 + length r.0))
        (find (λ (r : List ℕ × ℕ). begins r.0 rest.now) (map row_of names.now)) }
{
    for name in names {
        if rest.starts_with(name.bytes) {
            return Some((name.character, 1 + name.bytes.len()));
        }
    }
    None
}

/// The character of the digits and the `;` at the front, with `front` more bytes before them.
fn numeric_reference(radix: u32, front: usize, rest: &[u8]) -> Option<(char, usize)>
    requires radix { (radix ≡ 10) ⊎ (radix ≡ 16) }
    requires front { front < 8 }
    ensures found { result ≡ spec.numeric_reference radix front rest.now }
    ensures within { IfSome result (λ r. (0 < r.1) × (r.1 ≤ front + length rest.now)) }
{
    let size = digits_len(radix, rest);
    let (digits, after) = rest.split_at(size);
    if size == 0 || !after.starts_with(b";") {
        return None;
    }
    match character_of(radix, digits) {
        Some(character) => Some((character, front + size + 1)),
        None => None,
    }
}

fn digits_len(radix: u32, rest: &[u8]) -> usize
    requires { (radix ≡ 10) ⊎ (radix ≡ 16) }
    ensures size { result ≡ prefix_len (λ b. is_digit b radix) rest.now }
    ensures within { result ≤ length rest.now }
{
    if radix == 16 {
        run_len(rest, Class::HexadecimalDigit)
    } else {
        run_len(rest, Class::DecimalDigit)
    }
}

/// The character whose code the digits write, if it has one.
fn character_of(radix: u32, digits: &[u8]) -> Option<char>
    requires some { 0 < length digits.now }
    requires radix { (radix ≡ 10) ⊎ (radix ≡ 16) }
    requires digits { AllDigits radix digits.now }
    ensures { result ≡ (if scalar (digits_value radix digits.now)
        then Some (digits_value radix digits.now) else None) }
{
    let Ok(text) = str::from_utf8(digits) else {
        return None;
    };
    match u32::from_str_radix(text, radix) {
        Ok(code) => char::from_u32(code),
        Err(_) => None,
    }
}

/// Puts a character at the end.
pub(crate) fn push_character(out: &mut Vec<u8>, character: char) -> Result<(), AllocError>
    ensures { OnOk result (out.new.items ≡ out.old.items ++ encode_utf8 character) }
{
    let mut buffer = [0u8; 4];
    let text = character.encode_utf8(&mut buffer);
    out.extend_from_slice(text.as_bytes())
}

/// Puts a text at the end, with its references replaced.
pub(crate) fn push_decoded(out: &mut Vec<u8>, text: &[u8]) -> Result<(), AllocError>
    ensures { OnOk result (out.new.items ≡ out.old.items ++ spec.decoded_text text.now) }
{
    let mut at = 0;
    'characters: while at < text.len() {
        at += push_next(out, &text[at..])?;
    }
    Ok(())
}

/// Puts the reference or the byte at the front at the end, and says how many bytes it took.
fn push_next(out: &mut Vec<u8>, rest: &[u8]) -> Result<usize, AllocError>
    requires { 0 < length rest.now }
    ensures next { IfOk result (λ n. out.old.items ++ spec.decoded_text rest.now
        ≡ out.new.items ++ spec.decoded_text (drop n rest.now)) }
    ensures within { IfOk result (λ n. (0 < n) × (n ≤ length rest.now)) }
{
    if rest[0] == b'&' {
        if let Some((character, length)) = reference_at(rest.split_at(1).1) {
            push_character(out, character)?;
            return Ok(length);
        }
    }
    out.push(rest[0])?;
    Ok(1)
}
