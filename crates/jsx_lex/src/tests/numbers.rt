//! Numbers with their values, and what is no number.

ghost use Rattle.jsx_lex.specs.TokenWords.{IsWord};

use super::{Refused, Row, word_at};
use crate::TokenKind::{Name, Number};
use crate::{LexKind, TokenKind, lex, number_value};
use std::alloc::Global;
use std::process::Abort;
use std::test::Fail;

pub(super) static ROWS: [Row; 4] = [
    Row {
        text: "0 10 -7",
        tokens: &[(Number, 0, 1), (Number, 2, 4), (Number, 5, 7)],
    },
    Row {
        text: "9223372036854775807 -9223372036854775808",
        tokens: &[(Number, 0, 19), (Number, 20, 40)],
    },
    Row {
        text: "a-1",
        tokens: &[(Name, 0, 1), (Number, 1, 3)],
    },
    Row {
        text: "a -1 ",
        tokens: &[(Name, 0, 1), (Number, 2, 4)],
    },
];

pub(super) static REFUSED: [Refused; 12] = [
    Refused {
        text: "9223372036854775808",
        at: 0,
        kind: LexKind::Number,
    },
    Refused {
        text: "-9223372036854775809",
        at: 0,
        kind: LexKind::Number,
    },
    Refused {
        text: "-0",
        at: 0,
        kind: LexKind::Number,
    },
    Refused {
        text: "-",
        at: 0,
        kind: LexKind::Number,
    },
    Refused {
        text: "-a",
        at: 0,
        kind: LexKind::Number,
    },
    Refused {
        text: "01",
        at: 0,
        kind: LexKind::Number,
    },
    Refused {
        text: "1a",
        at: 0,
        kind: LexKind::Number,
    },
    Refused {
        text: "1_",
        at: 0,
        kind: LexKind::Number,
    },
    Refused {
        text: "1$",
        at: 0,
        kind: LexKind::Number,
    },
    Refused {
        text: "1.",
        at: 0,
        kind: LexKind::Number,
    },
    Refused {
        text: "-01",
        at: 0,
        kind: LexKind::Number,
    },
    Refused {
        text: "1.5",
        at: 0,
        kind: LexKind::Number,
    },
];

static NUMBERS: [(&str, i64); 6] = [
    ("0", 0),
    ("7", 7),
    ("-1", -1),
    ("1234567890", 1234567890),
    ("9223372036854775807", i64::MAX),
    ("-9223372036854775808", i64::MIN),
];

/// The value of a word, where it has one.
fn value_of(kind: TokenKind, word: &[u8]) -> Option<i64>
    requires { IsWord kind word.now }
{
    match kind {
        TokenKind::Number => Some(number_value(word)),
        _ => None,
    }
}

fn check_number(rt: &impl Abort, alloc: Global, source: &[u8], expected: i64) -> Result<(), Fail> {
    let tokens = lex(alloc, source)?;
    let mut is_seen = false;
    for token in &tokens {
        let Some(word) = word_at(source, token) else {
            break;
        };
        if let Some(value) = value_of(token.kind, word) {
            assert!(rt; value == expected, "{value} is not {expected}");
            is_seen = true;
        }
    }
    assert!(rt; is_seen, "no number for {expected}");
    Ok(())
}

#[test]
fn values_of_numbers(rt: HostRuntime) -> Result<(), Fail> {
    for (source, expected) in NUMBERS {
        check_number(&rt, rt.alloc(), source.as_bytes(), expected)?;
    }
    Ok(())
}
