//! What stands between tags, and the texts of strings and of what stands there.

ghost use Rattle.jsx_lex.specs.TokenWords.{IsWord};

use super::{Row, word_at};
use crate::TokenKind::{JsxText, Name, Sign};
use crate::{TokenKind, decode_string, decode_tag_string, decode_text, lex};
use std::alloc::{AllocError, Global};
use std::process::Abort;
use std::test::Fail;

pub(super) static ROWS: [Row; 10] = [
    Row {
        text: "<p>a</p>",
        tokens: &[
            (Sign, 0, 1),
            (Name, 1, 2),
            (Sign, 2, 3),
            (JsxText, 3, 4),
            (Sign, 4, 6),
            (Name, 6, 7),
            (Sign, 7, 8),
        ],
    },
    Row {
        text: "<p>{x}</p>",
        tokens: &[
            (Sign, 0, 1),
            (Name, 1, 2),
            (Sign, 2, 3),
            (Sign, 3, 4),
            (Name, 4, 5),
            (Sign, 5, 6),
            (Sign, 6, 8),
            (Name, 8, 9),
            (Sign, 9, 10),
        ],
    },
    Row {
        text: "<p>{}</p>",
        tokens: &[
            (Sign, 0, 1),
            (Name, 1, 2),
            (Sign, 2, 3),
            (Sign, 3, 4),
            (Sign, 4, 5),
            (Sign, 5, 7),
            (Name, 7, 8),
            (Sign, 8, 9),
        ],
    },
    Row {
        text: "<p>a<b/>c</p>",
        tokens: &[
            (Sign, 0, 1),
            (Name, 1, 2),
            (Sign, 2, 3),
            (JsxText, 3, 4),
            (Sign, 4, 5),
            (Name, 5, 6),
            (Sign, 6, 8),
            (JsxText, 8, 9),
            (Sign, 9, 11),
            (Name, 11, 12),
            (Sign, 12, 13),
        ],
    },
    Row {
        text: "<p>// a /* b \"</p>",
        tokens: &[
            (Sign, 0, 1),
            (Name, 1, 2),
            (Sign, 2, 3),
            (JsxText, 3, 14),
            (Sign, 14, 16),
            (Name, 16, 17),
            (Sign, 17, 18),
        ],
    },
    Row {
        text: "<p>é</p>",
        tokens: &[
            (Sign, 0, 1),
            (Name, 1, 2),
            (Sign, 2, 3),
            (JsxText, 3, 5),
            (Sign, 5, 7),
            (Name, 7, 8),
            (Sign, 8, 9),
        ],
    },
    Row {
        text: "<p>a{<b>c</b>}d</p>",
        tokens: &[
            (Sign, 0, 1),
            (Name, 1, 2),
            (Sign, 2, 3),
            (JsxText, 3, 4),
            (Sign, 4, 5),
            (Sign, 5, 6),
            (Name, 6, 7),
            (Sign, 7, 8),
            (JsxText, 8, 9),
            (Sign, 9, 11),
            (Name, 11, 12),
            (Sign, 12, 13),
            (Sign, 13, 14),
            (JsxText, 14, 15),
            (Sign, 15, 17),
            (Name, 17, 18),
            (Sign, 18, 19),
        ],
    },
    Row {
        text: "<p>&amp;&</p>",
        tokens: &[
            (Sign, 0, 1),
            (Name, 1, 2),
            (Sign, 2, 3),
            (JsxText, 3, 9),
            (Sign, 9, 11),
            (Name, 11, 12),
            (Sign, 12, 13),
        ],
    },
    Row {
        text: "<a>=;'\"</a>",
        tokens: &[
            (Sign, 0, 1),
            (Name, 1, 2),
            (Sign, 2, 3),
            (JsxText, 3, 7),
            (Sign, 7, 9),
            (Name, 9, 10),
            (Sign, 10, 11),
        ],
    },
    Row {
        text: "<p>\n\ta\r\n</p>",
        tokens: &[
            (Sign, 0, 1),
            (Name, 1, 2),
            (Sign, 2, 3),
            (JsxText, 3, 8),
            (Sign, 8, 10),
            (Name, 10, 11),
            (Sign, 11, 12),
        ],
    },
];

/// A text with the texts of its strings and of what stands between its tags, in order.
static TEXTS: [(&str, &[&str]); 20] = [
    ("''", &[""]),
    ("'\\\\ \\\" \\' \\n \\r \\t'", &["\\ \" ' \n \r \t"]),
    (
        "'\\u0041\\u00e9\\u20AC\\uFFFD'",
        &["A\u{e9}\u{20ac}\u{fffd}"],
    ),
    ("'&amp;\u{e9}'", &["&amp;\u{e9}"]),
    (
        "<p a='\\n&amp;&lt;&gt;&quot;&apos;&nbsp;'/>",
        &["\\n&<>\"'\u{a0}"],
    ),
    ("<p a=\" x\n y \"/>", &[" x\n y "]),
    (
        "<p>&#65;&#x41;&#0065;&#x00e9;&#x1F600;</p>",
        &["AAA\u{e9}\u{1f600}"],
    ),
    (
        "<p>&amp &#; &#x; &#xD800; &#x110000; &#99999999999; &bogus; &#x4g; &AMP; &#X41;</p>",
        &["&amp &#; &#x; &#xD800; &#x110000; &#99999999999; &bogus; &#x4g; &AMP; &#X41;"],
    ),
    ("<p>&amp;lt;&amp;amp;</p>", &["&lt;&amp;"]),
    ("<p> a  b </p>", &[" a  b "]),
    ("<p>\t</p>", &["\t"]),
    ("<p>\n</p>", &[""]),
    ("<p> \n \t\r\n </p>", &[""]),
    ("<p>a\nb</p>", &["a b"]),
    ("<p> a \n b \n c </p>", &[" a b c "]),
    ("<p>a\r\n\r\n\tb  c\r\n</p>", &["a b  c"]),
    ("<p>\n  a\n  {x}\n  b <i>c</i>\n</p>", &["a", "b ", "c", ""]),
    ("<p>a\n&#32;\nb&#10;</p>", &["a   b\n"]),
    ("<p>Blog &amp; News</p>", &["Blog & News"]),
    ("<p>\u{e9}\n\u{e9}\u{a0}\n</p>", &["\u{e9} \u{e9}\u{a0}"]),
];

/// The text of a word, where it has one.
fn text_of(alloc: Global, kind: TokenKind, word: &[u8]) -> Result<Option<Vec<u8>>, AllocError>
    requires { IsWord kind word.now }
{
    match kind {
        TokenKind::Str => Ok(Some(decode_string(alloc, word)?)),
        TokenKind::TagStr => Ok(Some(decode_tag_string(alloc, word)?)),
        TokenKind::JsxText => Ok(Some(decode_text(alloc, word)?)),
        TokenKind::Name | TokenKind::Number | TokenKind::Sign => Ok(None),
    }
}

fn check_texts(
    rt: &impl Abort,
    alloc: Global,
    source: &[u8],
    expected: &[&str],
) -> Result<(), Fail> {
    let tokens = lex(alloc, source)?;
    let mut count = 0;
    for token in &tokens {
        let Some(word) = word_at(source, token) else {
            break;
        };
        if let Some(text) = text_of(alloc, token.kind, word)? {
            let wanted = expected.get(count).ok_or("one text more")?;
            assert!(rt;
                text.as_slice() == wanted.as_bytes(),
                "text {count} is not {wanted}"
            );
            count += 1;
        }
    }
    assert!(rt; count == expected.len(), "{count} texts");
    Ok(())
}

#[test]
fn texts_of_tokens(rt: HostRuntime) -> Result<(), Fail> {
    for (source, expected) in TEXTS {
        check_texts(&rt, rt.alloc(), source.as_bytes(), expected)?;
    }
    Ok(())
}
