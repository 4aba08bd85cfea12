//! What stands at a place of a text.

ghost use Rattle.std.specs.Prelude.{◌≡◌, ◌<◌, ◌≤◌, length, IfSome};
ghost use Rattle.jsx_lex.specs.Reading as spec;

use crate::characters::{
    Class, is_jsx_text, is_name_start, is_number_start, is_quote, is_space, run_len,
};
use crate::mode::{Change, Mode};
use crate::number::number_len;
use crate::sign::{children_sign, close_sign, code_sign, tag_sign};
use crate::string::string_len;
use crate::token::TokenKind;

/// A space, a comment or a token at the front of a text. Its kind is `None` where it is skipped.
#[derive(Clone, Copy)]
pub(crate) struct Found {
    pub(crate) kind: Option<TokenKind>,
    pub(crate) length: usize,
    pub(crate) change: Change,
}

impl Found {
    fn gap(length: usize) -> Found
        ensures { result ≡ spec.found None length }
    {
        Found {
            kind: None,
            length,
            change: Change::Keep,
        }
    }

    fn word(kind: TokenKind, length: usize) -> Found
        ensures { result ≡ spec.found (Some kind) length }
    {
        Found {
            kind: Some(kind),
            length,
            change: Change::Keep,
        }
    }
}

/// What stands at the front of the text in this mode. `is_first` says whether it is the mode at the
/// beginning of the text.
pub(crate) fn lexeme_at(mode: Mode, is_first: bool, rest: &[u8]) -> Option<Found>
    ensures found { result ≡ spec.read mode is_first rest.now }
    ensures within { IfSome result (λ f. (0 < f.length) × (f.length ≤ length rest.now)) }
{
    match mode {
        Mode::Code if is_first && rest.starts_with(b"}") => None,
        Mode::Code => in_code(rest),
        Mode::Tag => in_tag(rest),
        Mode::Children => in_children(rest),
        Mode::Close => in_close(rest),
    }
}

fn in_code(rest: &[u8]) -> Option<Found>
    ensures { result ≡ spec.read_code rest.now }
{
    let (&first, more) = rest.split_first()?;
    if is_space(first) {
        Some(Found::gap(1))
    } else if is_name_start(first) {
        Some(Found::word(TokenKind::Name, 1 + run_len(more, Class::NamePart)))
    } else if is_number_start(first) {
        Some(Found::word(TokenKind::Number, number_len(rest)?))
    } else if is_quote(first) {
        Some(Found::word(TokenKind::Str, 1 + string_len(first, more)?))
    } else if first == b'/' {
        Some(Found::gap(comment_len(more)?))
    } else {
        code_sign(rest)
    }
}

fn in_tag(rest: &[u8]) -> Option<Found>
    ensures { result ≡ spec.read_tag rest.now }
{
    let (&first, more) = rest.split_first()?;
    if is_space(first) {
        Some(Found::gap(1))
    } else if is_name_start(first) {
        Some(Found::word(TokenKind::Name, 1 + run_len(more, Class::TagNamePart)))
    } else if is_quote(first) {
        Some(Found::word(TokenKind::TagStr, tag_string_len(first, more)?))
    } else {
        tag_sign(rest)
    }
}

fn in_children(rest: &[u8]) -> Option<Found>
    ensures { result ≡ spec.read_children rest.now }
{
    let (&first, more) = rest.split_first()?;
    if is_jsx_text(first) {
        Some(Found::word(TokenKind::JsxText, 1 + run_len(more, Class::JsxText)))
    } else {
        children_sign(rest)
    }
}

fn in_close(rest: &[u8]) -> Option<Found>
    ensures { result ≡ spec.read_close rest.now }
{
    let (&first, more) = rest.split_first()?;
    if is_space(first) {
        Some(Found::gap(1))
    } else if is_name_start(first) {
        Some(Found::word(TokenKind::Name, 1 + run_len(more, Class::TagNamePart)))
    } else {
        close_sign(rest)
    }
}

/// The length of a string of Tag with its quotes, from what follows its first quote.
fn tag_string_len(quote: u8, rest: &[u8]) -> Option<usize>
    ensures { result ≡ spec.tag_string_len quote rest.now }
{
    let length = run_len(rest, Class::Except(quote));
    if length < rest.len() {
        Some(length + 2)
    } else {
        None
    }
}

/// The length of a comment, from what follows its first `/`.
fn comment_len(rest: &[u8]) -> Option<usize>
    ensures { result ≡ spec.comment_len rest.now }
{
    let (&second, more) = rest.split_first()?;
    match second {
        b'/' => Some(2 + run_len(more, Class::InLine)),
        b'*' => Some(2 + comment_end(more)?),
        _ => None,
    }
}

/// The place after the first `*/`.
fn comment_end(rest: &[u8]) -> Option<usize>
    ensures length { result ≡ spec.comment_end rest.now }
    ensures within { IfSome result (λ n. n ≤ length rest.now) }
{
    for at in 0..rest.len() {
        if rest[at..].starts_with(b"*/") {
            return Some(at + 2);
        }
    }
    None
}
