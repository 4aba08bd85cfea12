//! What is printed of a piece so far.

ghost use Rattle.std.specs.Prelude.{◌≡◌, ◌++◌, ◌∷◌, [], false, OnOk};

use crate::piece::Kid;
use fizz_text::{OutOfMemory, Text};
use sqlite_items::Items;
use std::alloc::{AllocError, AllocFailed};

/// The bytes, what was cut out of them, and whether a text was printed last.
#[derive(Drop)]
pub(crate) struct Sheet<'a> {
    pub(crate) out: Vec<u8>,
    pub(crate) kids: Items<Kid<'a>>,
    pub(crate) after_text: bool,
}

impl<'a> Sheet<'a> {
    /// Cuts something out. What fills it is kept apart by itself, so that no text counts as printed last after it.
    pub(crate) fn push_kid(&mut self, kid: Kid<'a>) -> Result<(), OutOfMemory>
        ensures { OnOk result (self.new
            ≡ record self.old { kids = self.old.kids ++ kid.entry ∷ []; after_text = false }) }
    {
        self.kids.push(kid)?;
        self.after_text = false;
        Ok(())
    }
}

/// Why the printing of a piece ends early: with the first failure's digest, or without memory.
#[derive(Debug, Drop)]
pub(crate) enum Stop {
    Failed(Text),
    OutOfMemory,
}

impl From<OutOfMemory> for Stop {
    ghost use Rattle.std.specs.Prelude.{◌≡◌};
    ghost use Rattle.fizz_piece.specs.declared.sheet.Stop.TheVariants.{OutOfMemory as Memory};

    ghost from_gives = { λ _ e. e ≡ Memory };

    fn from(_error: OutOfMemory) -> Stop {
        Stop::OutOfMemory
    }
}

impl From<AllocError> for Stop {
    ghost use Rattle.std.specs.Prelude.{◌≡◌};
    ghost use Rattle.fizz_piece.specs.declared.sheet.Stop.TheVariants.{OutOfMemory as Memory};

    ghost from_gives = { λ _ e. e ≡ Memory };

    fn from(_error: AllocError) -> Stop {
        Stop::OutOfMemory
    }
}

impl<T: Drop> From<AllocFailed<T>> for Stop {
    ghost use Rattle.std.specs.Prelude.{◌≡◌};
    ghost use Rattle.fizz_piece.specs.declared.sheet.Stop.TheVariants.{OutOfMemory as Memory};

    ghost from_gives = { λ _ e. e ≡ Memory };

    fn from(_error: AllocFailed<T>) -> Stop {
        Stop::OutOfMemory
    }
}
