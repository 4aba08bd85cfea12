//! Why a text has no tokens.

ghost use Rattle.std.specs.Prelude.{◌≡◌, ◌≢◌};
ghost use Rattle.jsx_lex.specs.FaultTable.{kind_at};
ghost use Rattle.jsx_lex.specs.declared.fault.LexFault.TheVariants.{OutOfMemory as Memory};

use crate::characters::{is_number_start, is_quote};
use crate::mode::Mode;
use std::alloc::{AllocError, AllocFailed};
use thiserror::Error;

/// What is wrong at a place where no token, space or comment stands.
#[derive(Clone, Copy, Debug, PartialEq, Eq)]
pub enum LexKind {
    /// A character that begins no token of its mode.
    Char,
    /// The start of a number that is followed by more of a word, or that isn't in the range of i64, or is `-0`; or a
    /// `-` without a digit.
    Number,
    /// The start of a string without an end, or with a wrong escape or a line feed where it may have none.
    Str,
    /// The start of a `/*` comment without an end.
    Comment,
    /// A `}` or `>` between tags.
    Bare,
    /// A `}` where no `{` is open.
    Brace,
    /// The end of the text within braces or an element.
    End,
}

/// Why a text has no tokens.
#[derive(Debug, Drop, Error)]
pub enum LexFault {
    /// At this byte of the text no token, space or comment stands, and there is none before it.
    #[error("no token stands here")]
    Bad { at: usize, kind: LexKind },
    /// No memory was left.
    #[error("out of memory")]
    OutOfMemory,
}

impl From<AllocError> for LexFault {
    ghost from_gives = { λ _ e. e ≡ Memory };

    fn from(_error: AllocError) -> LexFault {
        LexFault::OutOfMemory
    }
}

impl<T: Drop> From<AllocFailed<T>> for LexFault {
    ghost from_gives = { λ _ e. e ≡ Memory };

    fn from(_error: AllocFailed<T>) -> LexFault {
        LexFault::OutOfMemory
    }
}

/// What is wrong where no lexeme of the mode stands.
pub(crate) fn kind_at(mode: Mode, rest: &[u8]) -> LexKind
    ensures { result ≡ kind_at mode rest.now }
{
    match mode {
        Mode::Code => kind_in_code(rest),
        Mode::Tag | Mode::Children | Mode::Close => kind_in_element(mode, rest),
    }
}

fn kind_in_code(rest: &[u8]) -> LexKind
    ensures { result ≡ kind_at Mode.Code rest.now }
{
    let Some((&first, _)) = rest.split_first() else {
        return LexKind::End;
    };
    if is_number_start(first) {
        LexKind::Number
    } else if is_quote(first) {
        LexKind::Str
    } else if rest.starts_with(b"/*") {
        LexKind::Comment
    } else if first == b'}' {
        LexKind::Brace
    } else {
        LexKind::Char
    }
}

fn kind_in_element(mode: Mode, rest: &[u8]) -> LexKind
    ensures { mode ≢ Mode.Code → result ≡ kind_at mode rest.now }
{
    let Some((&first, _)) = rest.split_first() else {
        return LexKind::End;
    };
    match mode {
        Mode::Tag if is_quote(first) => LexKind::Str,
        Mode::Children => LexKind::Bare,
        _ => LexKind::Char,
    }
}
