//! The numbers of Code.

ghost use Rattle.std.specs.Prelude.{◌≡◌, ◌^◌, ◌<◌, SomeIff, length, not};
ghost use Rattle.jsx_lex.specs.Characters as characters;
ghost use Rattle.std.specs.Str.Parse.{digits_value, AllDigits};
ghost use Rattle.jsx_lex.specs.Reading as spec;

use crate::characters::{Class, is_number_follower, run_len};
use std::str;

/// The range of i64 ends before this value, and downwards with it.
const PAST: u64 = 1 << 63;

/// The length of the number at the front.
pub(crate) fn number_len(rest: &[u8]) -> Option<usize>
    ensures { result ≡ spec.number_len rest.now }
{
    let (&first, more) = rest.split_first()?;
    if first == b'-' {
        match digits_len(1, PAST + 1, more) {
            Some(length) => Some(1 + length),
            None => None,
        }
    } else {
        digits_len(0, PAST, rest)
    }
}

/// The length of the digits at the front, where they are a number with a value from `least` on and before `past`.
fn digits_len(least: u64, past: u64, rest: &[u8]) -> Option<usize>
    ensures { result ≡ spec.digits_len least past rest.now }
{
    let length = run_len(rest, Class::Digit);
    let (digits, after) = rest.split_at(length);
    if is_numeral(least, past, digits, after) {
        Some(length)
    } else {
        None
    }
}

fn is_numeral(least: u64, past: u64, digits: &[u8], after: &[u8]) -> bool
    requires { AllDigits 10 digits.now }
    ensures { result ≡ spec.is_numeral least past digits.now after.now }
{
    if digits.is_empty() || (digits.len() > 1 && digits[0] == b'0') || is_followed(after) {
        return false;
    }
    match value_of(digits) {
        Some(value) => least <= value && value < past,
        None => false,
    }
}

fn is_followed(after: &[u8]) -> bool
    ensures { result ≡ not (spec.ends characters.is_number_follower after.now) }
{
    match after.first() {
        Some(&next) => is_number_follower(next),
        None => false,
    }
}

/// The value of digits, or `None` where it isn't a u64.
pub(crate) fn value_of(digits: &[u8]) -> Option<u64>
    requires some { 0 < length digits.now }
    requires digits { AllDigits 10 digits.now }
    ensures { SomeIff result (digits_value 10 digits.now < 2 ^ 64) (digits_value 10 digits.now) }
{
    match str::from_utf8(digits) {
        Ok(text) => text.parse().ok(),
        Err(_) => None,
    }
}
