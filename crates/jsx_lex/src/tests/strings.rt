//! Strings, and what is no string.

use super::{Refused, Row};
use crate::LexKind;
use crate::TokenKind::{Name, Sign, Str};

pub(super) static ROWS: [Row; 5] = [
    Row {
        text: "\"\" ''",
        tokens: &[(Str, 0, 2), (Str, 3, 5)],
    },
    Row {
        text: "\"a\\\\\\\"\\'\\n\\r\\t\\u00e9\"",
        tokens: &[(Str, 0, 21)],
    },
    Row {
        text: "'\"' \"'\"",
        tokens: &[(Str, 0, 3), (Str, 4, 7)],
    },
    Row {
        text: "\"é\"",
        tokens: &[(Str, 0, 4)],
    },
    Row {
        text: "const v = use(\"r\" + n);",
        tokens: &[
            (Name, 0, 5),
            (Name, 6, 7),
            (Sign, 8, 9),
            (Name, 10, 13),
            (Sign, 13, 14),
            (Str, 14, 17),
            (Sign, 18, 19),
            (Name, 20, 21),
            (Sign, 21, 22),
            (Sign, 22, 23),
        ],
    },
];

pub(super) static REFUSED: [Refused; 11] = [
    Refused {
        text: "\"a",
        at: 0,
        kind: LexKind::Str,
    },
    Refused {
        text: "'a\"",
        at: 0,
        kind: LexKind::Str,
    },
    Refused {
        text: "\"a\nb\"",
        at: 0,
        kind: LexKind::Str,
    },
    Refused {
        text: "\"\\x\"",
        at: 0,
        kind: LexKind::Str,
    },
    Refused {
        text: "\"\\u12\"",
        at: 0,
        kind: LexKind::Str,
    },
    Refused {
        text: "\"\\ud800\"",
        at: 0,
        kind: LexKind::Str,
    },
    Refused {
        text: "\"\\udFFF\"",
        at: 0,
        kind: LexKind::Str,
    },
    Refused {
        text: "\"\\",
        at: 0,
        kind: LexKind::Str,
    },
    Refused {
        text: "<p a=\"x/>",
        at: 5,
        kind: LexKind::Str,
    },
    Refused {
        text: "<p a='x\"/>",
        at: 5,
        kind: LexKind::Str,
    },
    Refused {
        text: "a\r\n\t\"b\n\"",
        at: 4,
        kind: LexKind::Str,
    },
];
