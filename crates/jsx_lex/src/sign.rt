//! The signs of each mode.

ghost use Rattle.std.specs.Prelude.{◌≡◌, map, option_map};
ghost use Rattle.jsx_lex.specs.SignTable.{SignRow, code_signs, tag_signs, children_signs, close_signs, first_sign};
ghost use Rattle.jsx_lex.specs.SignRows.{row_of};
ghost use Rattle.jsx_lex.specs.Reading.{found_sign};

use crate::lexeme::Found;
use crate::mode::{Change, Mode};
use crate::token::TokenKind;

/// A sign, and what it does to the modes.
#[derive(Clone, Copy)]
pub(crate) struct Sign {
    bytes: &'static [u8],
    change: Change,
}

static CODE_SIGNS: [Sign; 20] = [
    Sign {
        bytes: b"===",
        change: Change::Keep,
    },
    Sign {
        bytes: b"!==",
        change: Change::Keep,
    },
    Sign {
        bytes: b"=>",
        change: Change::Keep,
    },
    Sign {
        bytes: b"&&",
        change: Change::Keep,
    },
    Sign {
        bytes: b"||",
        change: Change::Keep,
    },
    Sign {
        bytes: b"{",
        change: Change::Push(Mode::Code),
    },
    Sign {
        bytes: b"}",
        change: Change::Pop,
    },
    Sign {
        bytes: b"(",
        change: Change::Keep,
    },
    Sign {
        bytes: b")",
        change: Change::Keep,
    },
    Sign {
        bytes: b"[",
        change: Change::Keep,
    },
    Sign {
        bytes: b"]",
        change: Change::Keep,
    },
    Sign {
        bytes: b",",
        change: Change::Keep,
    },
    Sign {
        bytes: b";",
        change: Change::Keep,
    },
    Sign {
        bytes: b":",
        change: Change::Keep,
    },
    Sign {
        bytes: b".",
        change: Change::Keep,
    },
    Sign {
        bytes: b"?",
        change: Change::Keep,
    },
    Sign {
        bytes: b"!",
        change: Change::Keep,
    },
    Sign {
        bytes: b"=",
        change: Change::Keep,
    },
    Sign {
        bytes: b"+",
        change: Change::Keep,
    },
    Sign {
        bytes: b"<",
        change: Change::Push(Mode::Tag),
    },
];

static TAG_SIGNS: [Sign; 4] = [
    Sign {
        bytes: b"/>",
        change: Change::Pop,
    },
    Sign {
        bytes: b">",
        change: Change::Turn(Mode::Children),
    },
    Sign {
        bytes: b"{",
        change: Change::Push(Mode::Code),
    },
    Sign {
        bytes: b"=",
        change: Change::Keep,
    },
];

static CHILDREN_SIGNS: [Sign; 3] = [
    Sign {
        bytes: b"</",
        change: Change::Turn(Mode::Close),
    },
    Sign {
        bytes: b"<",
        change: Change::Push(Mode::Tag),
    },
    Sign {
        bytes: b"{",
        change: Change::Push(Mode::Code),
    },
];

static CLOSE_SIGNS: [Sign; 1] = [Sign {
    bytes: b">",
    change: Change::Pop,
}];

/// The first of the signs with which the text begins.
fn first_sign(signs: &[Sign], rest: &[u8]) -> Option<Found>
    ensures { result ≡ option_map found_sign (first_sign (map row_of signs.now) rest.now) }
{
    for sign in signs {
        if rest.starts_with(sign.bytes) {
            return Some(Found {
                kind: Some(TokenKind::Sign),
                length: sign.bytes.len(),
                change: sign.change,
            });
        }
    }
    None
}

#[tactic(auto, unfolding(crate::specs::SignTable::code_signs))]
pub(crate) fn code_sign(rest: &[u8]) -> Option<Found>
    ensures { result ≡ option_map found_sign (first_sign code_signs rest.now) }
{
    first_sign(&CODE_SIGNS, rest)
}

#[tactic(auto, unfolding(crate::specs::SignTable::tag_signs))]
pub(crate) fn tag_sign(rest: &[u8]) -> Option<Found>
    ensures { result ≡ option_map found_sign (first_sign tag_signs rest.now) }
{
    first_sign(&TAG_SIGNS, rest)
}

#[tactic(auto, unfolding(crate::specs::SignTable::children_signs))]
pub(crate) fn children_sign(rest: &[u8]) -> Option<Found>
    ensures { result ≡ option_map found_sign (first_sign children_signs rest.now) }
{
    first_sign(&CHILDREN_SIGNS, rest)
}

#[tactic(auto, unfolding(crate::specs::SignTable::close_signs))]
pub(crate) fn close_sign(rest: &[u8]) -> Option<Found>
    ensures { result ≡ option_map found_sign (first_sign close_signs rest.now) }
{
    first_sign(&CLOSE_SIGNS, rest)
}
