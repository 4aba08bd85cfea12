//! Tags and their attributes.

use super::Row;
use crate::TokenKind::{JsxText, Name, Sign, Str, TagStr};

pub(super) static ROWS: [Row; 11] = [
    Row {
        text: "<p/>",
        tokens: &[(Sign, 0, 1), (Name, 1, 2), (Sign, 2, 4)],
    },
    Row {
        text: "<p></p>",
        tokens: &[
            (Sign, 0, 1),
            (Name, 1, 2),
            (Sign, 2, 3),
            (Sign, 3, 5),
            (Name, 5, 6),
            (Sign, 6, 7),
        ],
    },
    Row {
        text: "<></>",
        tokens: &[(Sign, 0, 1), (Sign, 1, 2), (Sign, 2, 4), (Sign, 4, 5)],
    },
    Row {
        text: "<a-b c-d=\"x\" e/>",
        tokens: &[
            (Sign, 0, 1),
            (Name, 1, 4),
            (Name, 5, 8),
            (Sign, 8, 9),
            (TagStr, 9, 12),
            (Name, 13, 14),
            (Sign, 14, 16),
        ],
    },
    Row {
        text: "<p title='a\nb'/>",
        tokens: &[
            (Sign, 0, 1),
            (Name, 1, 2),
            (Name, 3, 8),
            (Sign, 8, 9),
            (TagStr, 9, 14),
            (Sign, 14, 16),
        ],
    },
    Row {
        text: "<p title=\"a\\\"/>",
        tokens: &[
            (Sign, 0, 1),
            (Name, 1, 2),
            (Name, 3, 8),
            (Sign, 8, 9),
            (TagStr, 9, 13),
            (Sign, 13, 15),
        ],
    },
    Row {
        text: "<p a={\"b\"}/>",
        tokens: &[
            (Sign, 0, 1),
            (Name, 1, 2),
            (Name, 3, 4),
            (Sign, 4, 5),
            (Sign, 5, 6),
            (Str, 6, 9),
            (Sign, 9, 10),
            (Sign, 10, 12),
        ],
    },
    Row {
        text: "<p\n a\n =\n'x' >b</ p >",
        tokens: &[
            (Sign, 0, 1),
            (Name, 1, 2),
            (Name, 4, 5),
            (Sign, 7, 8),
            (TagStr, 9, 12),
            (Sign, 13, 14),
            (JsxText, 14, 15),
            (Sign, 15, 17),
            (Name, 18, 19),
            (Sign, 20, 21),
        ],
    },
    Row {
        text: "x.map((c) => <b k={c}/>)",
        tokens: &[
            (Name, 0, 1),
            (Sign, 1, 2),
            (Name, 2, 5),
            (Sign, 5, 6),
            (Sign, 6, 7),
            (Name, 7, 8),
            (Sign, 8, 9),
            (Sign, 10, 12),
            (Sign, 13, 14),
            (Name, 14, 15),
            (Name, 16, 17),
            (Sign, 17, 18),
            (Sign, 18, 19),
            (Name, 19, 20),
            (Sign, 20, 21),
            (Sign, 21, 23),
            (Sign, 23, 24),
        ],
    },
    Row {
        text: "a ? <b/> : 'c'",
        tokens: &[
            (Name, 0, 1),
            (Sign, 2, 3),
            (Sign, 4, 5),
            (Name, 5, 6),
            (Sign, 6, 8),
            (Sign, 9, 10),
            (Str, 11, 14),
        ],
    },
    Row {
        text: "<a b='{}>'/>",
        tokens: &[
            (Sign, 0, 1),
            (Name, 1, 2),
            (Name, 3, 4),
            (Sign, 4, 5),
            (TagStr, 5, 10),
            (Sign, 10, 12),
        ],
    },
];
