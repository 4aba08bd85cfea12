//! The reader: a stream in pieces of any length.

ghost use Rattle.std.specs.Prelude.{◌≡◌, ◌<◌, ◌+◌, ◌^◌, ℕ, List, [], ◌++◌, length, IfOk, IfErr, Some, Err, IsErrAnd, is_ok, if◌then◌else◌, option_to_list};
ghost use Rattle.html_read.specs.declared.token.Token.{Token};
ghost use Rattle.html_read.specs.declared.fault.ReadKind.{ReadKind as Kind};
ghost use Rattle.html_read.specs.declared.fault.FinishFault.TheVariants.{Bad as FinishBad};
ghost use Rattle.html_read.specs.Tokens.{Tokenizes};
ghost use Rattle.html_read.specs.Reading.{HasRead, FeedCause, IsAgain, FinishCause, IsLast, IsTextSoFar, nothing_read};

use crate::building::token_of;
use crate::fault::{FinishFault, ReadFault, ReadKind};
use crate::machine::Mode;
use crate::place::Place;
use crate::token::Token;
use crate::walk::walk;
use fizz_text::OutOfMemory;
use std::alloc::Global;
use std::marker::Model;

/// Reads the tokens of a printed page from a stream that comes in pieces of any length. Each byte is looked at a
/// bounded number of times.
#[derive(Debug, Drop)]
pub struct Reader {
    alloc: Global,
    /// The bytes that no token ended.
    pending: Vec<u8>,
    /// The place of the first of them.
    place: usize,
    mode: Mode,
    fault: Option<(usize, ReadKind)>,
}

impl Model for Reader {
    ghost use Rattle.std.specs.Prelude.{◌≡◌, Some};
    ghost use Rattle.html_read.specs.Reading.{ReaderState};
    ghost use Rattle.html_read.specs.Machine.{mode_of};

    ghost Value = { ReaderState };

    ghost view = { λ r. record { rest = r.pending.items; place = r.place; fault = r.fault } };

    ghost invariant = { λ r. mode_of r.pending.items ≡ Some r.mode };
}

impl Reader {
    /// A reader of a stream from its first byte on.
    pub fn new(alloc: Global) -> Reader
        ensures held { result ≡ nothing_read }
        ensures read { HasRead [] [] result }
    {
        Reader {
            alloc,
            pending: Vec::new(alloc),
            place: 0,
            mode: Mode::Text(Place::Whole),
            fault: None,
        }
    }

    /// Takes the next piece, and gives the tokens that end in it. A text ends at the `<` after it.
    ///
    /// Refused with `Bad` exactly where the bytes so far can't become a page; from then on each call answers the
    /// same place and kind. `OutOfMemory` leaves the reader as it was.
    pub fn feed(&mut self, piece: &[u8]) -> Result<Vec<Token>, ReadFault>
        requires { self.old.place + (length self.old.rest + length piece.now) < 2 ^ 63 }
        ensures taken { IfOk result (λ new. (bytes : List ℕ) (toks : List Token)
            → HasRead bytes toks self.old
            → HasRead (bytes ++ piece.now) (toks ++ new.items) self.new) }
        ensures refused { IfErr result (FeedCause self.old piece.now self.new) }
        ensures counted { self.new.place + length self.new.rest
            ≡ self.old.place
            + (length self.old.rest + (if is_ok result then length piece.now else 0)) }
        ensures again { (at : ℕ) (kind : Kind) → self.old.fault ≡ Some (at, kind)
            → IsErrAnd result (IsAgain at kind) }
    {
        if let Some((at, kind)) = self.fault {
            let before = Vec::new(self.alloc);
            return Err(ReadFault::Bad { before, at, kind });
        }
        let start = self.pending.len();
        self.pending.extend_from_slice(piece)?;
        let Ok(walked) = walk(self.alloc, &self.pending, start, self.mode, self.place) else {
            self.pending.truncate(start);
            return Err(ReadFault::OutOfMemory);
        };
        if let Some((at, kind)) = walked.fault {
            self.pending.truncate(start);
            self.fault = Some((at, kind));
            return Err(ReadFault::Bad {
                before: walked.tokens,
                at,
                kind,
            });
        }
        if walked.from == 0 {
            // No token ended, so nothing is moved.
            self.mode = walked.mode;
            return Ok(walked.tokens);
        }
        let left = self.pending.len() - walked.from;
        self.pending.copy_within(walked.from.., 0);
        self.pending.truncate(left);
        self.place += walked.from;
        self.mode = walked.mode;
        Ok(walked.tokens)
    }

    /// Ends the stream, and gives the text that is open.
    pub fn finish(self) -> Result<Option<Token>, FinishFault>
        ensures last { IfOk result (IsLast self) }
        ensures whole { IfOk result (λ last. (bytes : List ℕ) (toks : List Token)
            → HasRead bytes toks self
            → Tokenizes bytes (toks ++ option_to_list last)) }
        ensures refused { IfErr result (FinishCause self) }
        ensures again { (at : ℕ) (kind : Kind) → self.fault ≡ Some (at, kind)
            → result ≡ Err (FinishBad at kind) }
    {
        if let Some((at, kind)) = self.fault {
            return Err(FinishFault::Bad { at, kind });
        }
        if self.pending.is_empty() {
            return Ok(None);
        }
        if !self.mode.is_whole_text() {
            return Err(FinishFault::Unfinished { at: self.place });
        }
        Ok(token_of(self.alloc, &self.pending, self.place)?)
    }

    /// The token that `finish` would give now, or `None` where it would give none or be refused.
    pub fn open_text(&self) -> Result<Option<Token>, OutOfMemory>
        ensures { IfOk result (IsTextSoFar self.now) }
    {
        if self.fault.is_some() || self.pending.is_empty() || !self.mode.is_whole_text() {
            return Ok(None);
        }
        token_of(self.alloc, &self.pending, self.place)
    }
}
