//! The tokens of a text.

/// What a token is.
#[derive(Clone, Copy, Debug, PartialEq, Eq)]
pub enum TokenKind {
    /// A name or a word of the language, in code or in a tag.
    Name,
    /// A whole number of Code, with its `-`.
    Number,
    /// A string of Code, with its quotes. It may have escapes.
    Str,
    /// A string of Tag, with its quotes. It may have character references.
    TagStr,
    /// The text between two tags or braces. It may have character references.
    JsxText,
    /// Any other mark.
    Sign,
}

/// A token of a text: the bytes of the text from `from` on and before `to`.
#[derive(Clone, Copy, Debug, PartialEq, Eq)]
pub struct Token {
    pub kind: TokenKind,
    pub from: usize,
    pub to: usize,
}
