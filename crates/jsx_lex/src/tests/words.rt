//! Names, signs, spaces and comments, outside tags.

use super::Row;
use crate::TokenKind::{Name, Sign};

pub(super) static ROWS: [Row; 17] = [
    Row {
        text: "",
        tokens: &[],
    },
    Row {
        text: "a",
        tokens: &[(Name, 0, 1)],
    },
    Row {
        text: "_$9 a1",
        tokens: &[(Name, 0, 3), (Name, 4, 6)],
    },
    Row {
        text: "=== == =",
        tokens: &[(Sign, 0, 3), (Sign, 4, 5), (Sign, 5, 6), (Sign, 7, 8)],
    },
    Row {
        text: "!== != !",
        tokens: &[(Sign, 0, 3), (Sign, 4, 5), (Sign, 5, 6), (Sign, 7, 8)],
    },
    Row {
        text: "=> && ||",
        tokens: &[(Sign, 0, 2), (Sign, 3, 5), (Sign, 6, 8)],
    },
    Row {
        text: "{}()[],;:.?+",
        tokens: &[
            (Sign, 0, 1),
            (Sign, 1, 2),
            (Sign, 2, 3),
            (Sign, 3, 4),
            (Sign, 4, 5),
            (Sign, 5, 6),
            (Sign, 6, 7),
            (Sign, 7, 8),
            (Sign, 8, 9),
            (Sign, 9, 10),
            (Sign, 10, 11),
            (Sign, 11, 12),
        ],
    },
    Row {
        text: "// c\na",
        tokens: &[(Name, 5, 6)],
    },
    Row {
        text: "// c",
        tokens: &[],
    },
    Row {
        text: "a/* x */b",
        tokens: &[(Name, 0, 1), (Name, 8, 9)],
    },
    Row {
        text: "/**/a",
        tokens: &[(Name, 4, 5)],
    },
    Row {
        text: "/* * / **/a",
        tokens: &[(Name, 10, 11)],
    },
    Row {
        text: "/*/*/a",
        tokens: &[(Name, 5, 6)],
    },
    Row {
        text: " \t\r\n a",
        tokens: &[(Name, 5, 6)],
    },
    Row {
        text: "{{}}",
        tokens: &[(Sign, 0, 1), (Sign, 1, 2), (Sign, 2, 3), (Sign, 3, 4)],
    },
    Row {
        text: "f({a, b})",
        tokens: &[
            (Name, 0, 1),
            (Sign, 1, 2),
            (Sign, 2, 3),
            (Name, 3, 4),
            (Sign, 4, 5),
            (Name, 6, 7),
            (Sign, 7, 8),
            (Sign, 8, 9),
        ],
    },
    Row {
        text: "// a\r\n/* b\n */ c",
        tokens: &[(Name, 15, 16)],
    },
];
