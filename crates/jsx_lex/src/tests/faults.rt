//! Refused texts, but for those of strings and of numbers.

use super::Refused;
use crate::LexKind;

pub(super) static REFUSED: [Refused; 35] = [
    Refused {
        text: "@",
        at: 0,
        kind: LexKind::Char,
    },
    Refused {
        text: "a\n@",
        at: 2,
        kind: LexKind::Char,
    },
    Refused {
        text: "é",
        at: 0,
        kind: LexKind::Char,
    },
    Refused {
        text: "a > b",
        at: 2,
        kind: LexKind::Char,
    },
    Refused {
        text: "a & b",
        at: 2,
        kind: LexKind::Char,
    },
    Refused {
        text: "a | b",
        at: 2,
        kind: LexKind::Char,
    },
    Refused {
        text: "/",
        at: 0,
        kind: LexKind::Char,
    },
    Refused {
        text: "a / b",
        at: 2,
        kind: LexKind::Char,
    },
    Refused {
        text: "#",
        at: 0,
        kind: LexKind::Char,
    },
    Refused {
        text: "<p !/>",
        at: 3,
        kind: LexKind::Char,
    },
    Refused {
        text: "<p / >",
        at: 3,
        kind: LexKind::Char,
    },
    Refused {
        text: "<p 5/>",
        at: 3,
        kind: LexKind::Char,
    },
    Refused {
        text: "<p }/>",
        at: 3,
        kind: LexKind::Char,
    },
    Refused {
        text: "<p></p 5>",
        at: 7,
        kind: LexKind::Char,
    },
    Refused {
        text: "</p>",
        at: 1,
        kind: LexKind::Char,
    },
    Refused {
        text: "<p></p/>",
        at: 6,
        kind: LexKind::Char,
    },
    Refused {
        text: "/* a",
        at: 0,
        kind: LexKind::Comment,
    },
    Refused {
        text: "/*/",
        at: 0,
        kind: LexKind::Comment,
    },
    Refused {
        text: "a /* b *",
        at: 2,
        kind: LexKind::Comment,
    },
    Refused {
        text: "<p>}</p>",
        at: 3,
        kind: LexKind::Bare,
    },
    Refused {
        text: "<p>a > b</p>",
        at: 5,
        kind: LexKind::Bare,
    },
    Refused {
        text: "<p>;}",
        at: 4,
        kind: LexKind::Bare,
    },
    Refused {
        text: "}",
        at: 0,
        kind: LexKind::Brace,
    },
    Refused {
        text: "{}}",
        at: 2,
        kind: LexKind::Brace,
    },
    Refused {
        text: "{",
        at: 1,
        kind: LexKind::End,
    },
    Refused {
        text: "{\"a\"",
        at: 4,
        kind: LexKind::End,
    },
    Refused {
        text: "<",
        at: 1,
        kind: LexKind::End,
    },
    Refused {
        text: "<p",
        at: 2,
        kind: LexKind::End,
    },
    Refused {
        text: "<p>",
        at: 3,
        kind: LexKind::End,
    },
    Refused {
        text: "<p>a",
        at: 4,
        kind: LexKind::End,
    },
    Refused {
        text: "<p></",
        at: 5,
        kind: LexKind::End,
    },
    Refused {
        text: "<p>{",
        at: 4,
        kind: LexKind::End,
    },
    Refused {
        text: "<p a={",
        at: 6,
        kind: LexKind::End,
    },
    Refused {
        text: "(<p>\n a",
        at: 7,
        kind: LexKind::End,
    },
    Refused {
        text: "<p>{a}</p",
        at: 9,
        kind: LexKind::End,
    },
];
