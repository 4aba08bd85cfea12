//! What a token says to a parser.

ghost use Rattle.std.specs.Prelude.{◌≡◌, ◌≤◌, IfOk, IsUtf8, length, slice_range};
ghost use Rattle.jsx_lex.specs.TokenMeanings.{punctuator_of, word_at};
ghost use Rattle.jsx_lex.specs.TokenWords.{IsWord};

use crate::meaning::{decode_string, decode_tag_string, decode_text, number_value};
use crate::token::{Token, TokenKind};
use fizz_text::{OutOfMemory, Text};
use std::alloc::Global;

/// A token with its meaning: the text of a string or between tags is decoded, and a number is its value.
#[derive(Debug, Drop)]
pub enum Word {
    /// A name or a word of the language, with the place of its token.
    Name { text: Text, at: usize },
    Number(i64),
    /// A string of Code or of Tag.
    Text(Text),
    /// The text between tags. It is empty exactly where it only lays out the source.
    JsxText(Text),
    Sign(Punctuator),
}

/// The marks between names, numbers and texts.
#[derive(Clone, Copy, Debug, PartialEq, Eq)]
pub enum Punctuator {
    /// `===`
    StrictEqual,
    /// `!==`
    StrictNotEqual,
    /// `=>`
    Arrow,
    /// `&&`
    AndAnd,
    /// `||`
    OrOr,
    /// `{`
    OpenBrace,
    /// `}`
    CloseBrace,
    /// `(`
    OpenParen,
    /// `)`
    CloseParen,
    /// `[`
    OpenBracket,
    /// `]`
    CloseBracket,
    /// `,`
    Comma,
    /// `;`
    Semicolon,
    /// `:`
    Colon,
    /// `.`
    Dot,
    /// `?`
    Question,
    /// `!`
    Not,
    /// `=`
    Assign,
    /// `+`
    Plus,
    /// `<`
    Less,
    /// `>`
    Greater,
    /// `/>`
    SlashGreater,
    /// `</`
    LessSlash,
}

/// The word of a token of a text.
pub fn word_of(alloc: Global, text: &[u8], token: Token) -> Result<Word, OutOfMemory>
    requires ordered { token.from ≤ token.to }
    requires within { token.to ≤ length text.now }
    requires form { IsWord token.kind (slice_range text.now token.from token.to) }
    requires utf8 { IsUtf8 (slice_range text.now token.from token.to) }
    ensures { IfOk result (λ word. word ≡ word_at text.now token) }
{
    let bytes = &text[token.from..token.to];
    match token.kind {
        TokenKind::Name => {
            let name = Vec::from_slice(alloc, bytes)?;
            Ok(Word::Name {
                text: text_of(name),
                at: token.from,
            })
        }
        TokenKind::Number => Ok(Word::Number(number_value(bytes))),
        TokenKind::Str => {
            let string = decode_string(alloc, bytes)?;
            Ok(Word::Text(text_of(string)))
        }
        TokenKind::TagStr => {
            let string = decode_tag_string(alloc, bytes)?;
            Ok(Word::Text(text_of(string)))
        }
        TokenKind::JsxText => {
            let text = decode_text(alloc, bytes)?;
            Ok(Word::JsxText(text_of(text)))
        }
        TokenKind::Sign => Ok(Word::Sign(punctuator_of(bytes))),
    }
}

/// Bytes that are UTF-8, as a text.
fn text_of(bytes: Vec<u8>) -> Text
    requires { IsUtf8 bytes.items }
    ensures { result ≡ bytes.items }
{
    Text::from_bytes(bytes).unwrap()
}

/// The mark that is spelled so; `<` where it is none of the others.
#[tactic(auto, unfolding(crate::specs::TokenMeanings::punctuator_rows))]
fn punctuator_of(bytes: &[u8]) -> Punctuator
    ensures { result ≡ punctuator_of bytes.now }
{
    match bytes {
        b"===" => Punctuator::StrictEqual,
        b"!==" => Punctuator::StrictNotEqual,
        b"=>" => Punctuator::Arrow,
        b"&&" => Punctuator::AndAnd,
        b"||" => Punctuator::OrOr,
        b"{" => Punctuator::OpenBrace,
        b"}" => Punctuator::CloseBrace,
        b"(" => Punctuator::OpenParen,
        b")" => Punctuator::CloseParen,
        b"[" => Punctuator::OpenBracket,
        b"]" => Punctuator::CloseBracket,
        b"," => Punctuator::Comma,
        b";" => Punctuator::Semicolon,
        b":" => Punctuator::Colon,
        b"." => Punctuator::Dot,
        b"?" => Punctuator::Question,
        b"!" => Punctuator::Not,
        b"=" => Punctuator::Assign,
        b"+" => Punctuator::Plus,
        b">" => Punctuator::Greater,
        b"/>" => Punctuator::SlashGreater,
        b"</" => Punctuator::LessSlash,
        _ => Punctuator::Less,
    }
}
