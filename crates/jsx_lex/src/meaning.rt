//! What tokens mean. Each function takes the bytes of a token.

ghost use Rattle.std.specs.Prelude.{◌≡◌, ◌<◌, ◌≤◌, ◌^◌, IfOk, IsUtf8, pos, neg_ℤ};
ghost use Rattle.jsx_lex.specs.Words.{IsNumber, IsStr, IsTagStr};
ghost use Rattle.jsx_lex.specs.Meanings.{number_of, string_text_of, IsStringText, tag_text_of, jsx_text_of};

use crate::clean::clean;
use crate::number::value_of;
use crate::reference::push_decoded;
use crate::string::{part_at, push_meaning};
use std::alloc::{AllocError, Global};

/// The value of a `Number`.
pub fn number_value(word: &[u8]) -> i64
    requires { IsNumber word.now }
    ensures { result ≡ number_of word.now }
{
    if word[0] == b'-' {
        negated(value_of(word.split_at(1).1).unwrap())
    } else {
        value_of(word).unwrap() as i64
    }
}

fn negated(value: u64) -> i64
    requires some { 0 < value }
    requires fits { value ≤ 2 ^ 63 }
    ensures { result ≡ neg_ℤ (pos value) }
{
    -((value - 1) as i64) - 1
}

/// The text of a `Str`, with its escapes replaced.
pub fn decode_string(alloc: Global, word: &[u8]) -> Result<Vec<u8>, AllocError>
    requires { IsStr word.now }
    ensures text { IfOk result (λ v. IsStringText word.now v.items) }
    ensures read { IfOk result (λ v. v.items ≡ string_text_of word.now) }
    ensures utf8 { IsUtf8 word.now → IfOk result (λ v. IsUtf8 v.items) }
{
    let mut out = Vec::new(alloc);
    let quote = word[0];
    let mut at = 1;
    'parts: while let Some(part) = part_at(quote, &word[at..]) {
        push_meaning(&mut out, part.meaning)?;
        at += part.length;
    }
    Ok(out)
}

/// The text of a `TagStr`, with its character references replaced.
pub fn decode_tag_string(alloc: Global, word: &[u8]) -> Result<Vec<u8>, AllocError>
    requires { IsTagStr word.now }
    ensures text { IfOk result (λ v. v.items ≡ tag_text_of word.now) }
    ensures utf8 { IsUtf8 word.now → IfOk result (λ v. IsUtf8 v.items) }
{
    let mut out = Vec::new(alloc);
    push_decoded(&mut out, &word[1..word.len() - 1])?;
    Ok(out)
}

/// The text of a `JsxText`: first the line breaks and blanks that lay out the source go, then character references
/// are replaced.
pub fn decode_text(alloc: Global, word: &[u8]) -> Result<Vec<u8>, AllocError>
    ensures text { IfOk result (λ v. v.items ≡ jsx_text_of word.now) }
    ensures utf8 { IsUtf8 word.now → IfOk result (λ v. IsUtf8 v.items) }
{
    let text = clean(alloc, word)?;
    let mut out = Vec::new(alloc);
    push_decoded(&mut out, &text)?;
    Ok(out)
}
