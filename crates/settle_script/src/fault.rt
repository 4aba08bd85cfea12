//! Why JSON is no value, bytes are no script, and two lists of settlements can't be joined.

ghost use Rattle.std.specs.Prelude.{◌≡◌};

use fizz_text::{OutOfMemory, Path, Text};
use std::alloc::{AllocError, AllocFailed};
use thiserror::Error;

/// Why JSON is no value. The path leads to the first place that isn't: each step is the number of an item, or of a
/// member in the order of names. A number above 4,294,967,295 stands as that one.
#[derive(Debug, Drop)]
pub enum ValueFault {
    /// A number that isn't whole.
    Float { path: Path },
    /// A whole number that is no i64.
    IntRange { path: Path },
    /// A value in more than 100 lists and records.
    Deep { path: Path },
    OutOfMemory,
}

impl From<OutOfMemory> for ValueFault {
    ghost use Rattle.settle_script.specs.declared.fault.ValueFault.TheVariants.{OutOfMemory as Memory};

    ghost from_gives = { λ _ e. e ≡ Memory };

    fn from(_error: OutOfMemory) -> ValueFault {
        ValueFault::OutOfMemory
    }
}

impl From<AllocError> for ValueFault {
    ghost use Rattle.settle_script.specs.declared.fault.ValueFault.TheVariants.{OutOfMemory as Memory};

    ghost from_gives = { λ _ e. e ≡ Memory };

    fn from(_error: AllocError) -> ValueFault {
        ValueFault::OutOfMemory
    }
}

/// Why bytes are no script. Lines are numbered from 0.
#[derive(Debug, Drop, Error)]
pub enum ScriptFault {
    /// The bytes are no JSON, or no array.
    #[error("the script is no JSON array")]
    NotJson,
    /// There are more than 65,536 lines. A count above 4,294,967,295 stands as that one.
    #[error("the script has too many lines")]
    TooManyEvents { count: u32 },
    /// The line has none of the forms.
    #[error("a line has none of the forms")]
    NotEvent { index: u32 },
    /// The digest has more than 1,024 bytes.
    #[error("a digest is too long")]
    DigestTooLong { index: u32, length: usize },
    /// The value holds a number that is no i64, or nests more than 100 lists and records.
    #[error("a value can't stand in a script")]
    BadValue { index: u32 },
    /// The line `first` has settled the name.
    #[error("a name is settled twice")]
    SettledTwice { index: u32, first: u32 },
    #[error("out of memory")]
    OutOfMemory,
}

impl From<OutOfMemory> for ScriptFault {
    ghost use Rattle.settle_script.specs.declared.fault.ScriptFault.TheVariants.{OutOfMemory as Memory};

    ghost from_gives = { λ _ e. e ≡ Memory };

    fn from(_error: OutOfMemory) -> ScriptFault {
        ScriptFault::OutOfMemory
    }
}

impl From<AllocError> for ScriptFault {
    ghost use Rattle.settle_script.specs.declared.fault.ScriptFault.TheVariants.{OutOfMemory as Memory};

    ghost from_gives = { λ _ e. e ≡ Memory };

    fn from(_error: AllocError) -> ScriptFault {
        ScriptFault::OutOfMemory
    }
}

/// Why two lists of settlements can't be joined.
#[derive(Debug, Drop)]
pub enum JoinFault {
    /// Both settle the name, and it is the first such name of the later list.
    AlreadySettled { name: Text },
    OutOfMemory,
}

impl From<OutOfMemory> for JoinFault {
    ghost use Rattle.settle_script.specs.declared.fault.JoinFault.TheVariants.{OutOfMemory as Memory};

    ghost from_gives = { λ _ e. e ≡ Memory };

    fn from(_error: OutOfMemory) -> JoinFault {
        JoinFault::OutOfMemory
    }
}
