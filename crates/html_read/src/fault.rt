//! Why a stream is no page.

ghost use Rattle.std.specs.Prelude.{◌≡◌};
ghost use Rattle.html_read.specs.declared.fault.ReadFault.TheVariants.{OutOfMemory as ReadMemory};
ghost use Rattle.html_read.specs.declared.fault.FinishFault.TheVariants.{OutOfMemory as FinishMemory};

use crate::token::Token;
use fizz_text::OutOfMemory;
use std::alloc::AllocError;
use thiserror::Error;

/// What is wrong at the first byte with which a stream cannot go on: the first that applies.
#[derive(Clone, Copy, Debug, PartialEq, Eq, Drop)]
pub enum ReadKind {
    /// Elsewhere: a name that no tag has, or what can't follow it.
    Name,
    /// In a start tag or a void tag, after its name.
    Attribute,
    /// Within one of the five replacements, as `&am`.
    Entity,
    /// After `<!`.
    Comment,
    /// Outside tags, comments and scripts.
    Text,
    /// A text or an attribute's value can't become UTF-8.
    Utf8,
}

/// Why `feed` took no piece.
#[derive(Debug, Drop, Error)]
pub enum ReadFault {
    /// With the byte at `at` the stream can't become a page. `before` holds the tokens that end before it and that
    /// no earlier call gave.
    #[error("no page from byte {at} on: {kind:?}")]
    Bad {
        before: Vec<Token>,
        at: usize,
        kind: ReadKind,
    },
    #[error("out of memory")]
    OutOfMemory,
}

/// Why `finish` gave no last token.
#[derive(Debug, Drop, Error)]
pub enum FinishFault {
    /// The fault that `feed` met.
    #[error("no page from byte {at} on: {kind:?}")]
    Bad { at: usize, kind: ReadKind },
    /// The stream ends within the token that begins at `at`.
    #[error("the page ends within the token at byte {at}")]
    Unfinished { at: usize },
    #[error("out of memory")]
    OutOfMemory,
}

impl From<AllocError> for ReadFault {
    ghost from_gives = { λ _ e. e ≡ ReadMemory };

    fn from(_error: AllocError) -> ReadFault {
        ReadFault::OutOfMemory
    }
}

impl From<OutOfMemory> for FinishFault {
    ghost from_gives = { λ _ e. e ≡ FinishMemory };

    fn from(_error: OutOfMemory) -> FinishFault {
        FinishFault::OutOfMemory
    }
}
