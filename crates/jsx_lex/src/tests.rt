//! Small texts with their tokens, refused texts, whole files, and what tokens mean.

ghost use Rattle.std.specs.Prelude.{◌≡◌, IfSome, slice_range};

mod faults;
mod files;
mod numbers;
mod strings;
mod tags;
mod texts;
mod words;

use crate::{LexFault, LexKind, Token, TokenKind, lex};
use std::alloc::Global;
use std::process::Abort;

/// A text with its tokens: kind, first byte, and the byte after the last.
struct Row {
    text: &'static str,
    tokens: &'static [(TokenKind, usize, usize)],
}

/// A text without tokens, with the place and kind of its fault.
struct Refused {
    text: &'static str,
    at: usize,
    kind: LexKind,
}

fn is_same(tokens: &[Token], expected: &[(TokenKind, usize, usize)]) -> bool {
    tokens.len() == expected.len()
        && tokens
            .iter()
            .zip(expected)
            .all(|(t, e)| t.kind == e.0 && t.from == e.1 && t.to == e.2)
}

fn check_rows(rt: &impl Abort, alloc: Global, rows: &[Row]) {
    for row in rows {
        match lex(alloc, row.text.as_bytes()) {
            Ok(tokens) => assert!(rt; is_same(&tokens, row.tokens), "tokens of {}", row.text),
            Err(fault) => assert!(rt; false, "{fault:?} of {}", row.text),
        }
    }
}

fn check_refused(rt: &impl Abort, alloc: Global, rows: &[Refused]) {
    for row in rows {
        match lex(alloc, row.text.as_bytes()) {
            Ok(_) => assert!(rt; false, "tokens of {}", row.text),
            Err(LexFault::Bad { at, kind }) => {
                assert!(rt;
                    at == row.at && kind == row.kind,
                    "{at} {kind:?} of {}",
                    row.text
                )
            }
            Err(LexFault::OutOfMemory) => assert!(rt; false, "no memory for {}", row.text),
        }
    }
}

/// The bytes of a token.
fn word_at<'a>(text: &'a [u8], token: &Token) -> Option<&'a [u8]>
    ensures { IfSome result (λ w. w.now ≡ slice_range text.now token.now.from token.now.to) }
{
    text.get(token.from..token.to)
}

#[test]
fn small_texts(rt: HostRuntime) {
    check_rows(&rt, rt.alloc(), &words::ROWS);
    check_rows(&rt, rt.alloc(), &numbers::ROWS);
    check_rows(&rt, rt.alloc(), &strings::ROWS);
    check_rows(&rt, rt.alloc(), &tags::ROWS);
    check_rows(&rt, rt.alloc(), &texts::ROWS);
}

#[test]
fn refused_texts(rt: HostRuntime) {
    check_refused(&rt, rt.alloc(), &faults::REFUSED);
    check_refused(&rt, rt.alloc(), &numbers::REFUSED);
    check_refused(&rt, rt.alloc(), &strings::REFUSED);
}
