//! What ends a command or a step before it is done.

ghost use Rattle.std.specs.Prelude.{◌≡◌};
ghost use Rattle.fizz_cli.specs.Steps.{IsOrMemory};
ghost use Rattle.fizz_cli.specs.declared.refusal.Refusal.{Refusal as Cause};
ghost use Rattle.fizz_cli.specs.declared.stop.OrMemory.TheVariants.{NoMemory};

use crate::refusal::{FileFault, Refusal};
use fizz_text::{OutOfMemory, Text};
use std::alloc::Global;

/// What ends a command before it is done.
#[derive(Debug, Drop)]
pub(crate) enum Stop {
    Refused(Refusal),
    SinkFailed,
    OutOfMemory,
}

impl From<OrMemory<Refusal>> for Stop {
    ghost use Rattle.fizz_cli.specs.Steps.{stop_of};

    ghost from_gives = { λ e s. s ≡ stop_of e };

    fn from(e: OrMemory<Refusal>) -> Stop {
        match e {
            OrMemory::Fault(refusal) => Stop::Refused(refusal),
            OrMemory::NoMemory => Stop::OutOfMemory,
        }
    }
}

/// What ends a step or a reader of bytes: what it refuses for, or want of memory.
#[derive(Debug, Drop)]
pub(crate) enum OrMemory<F: Drop> {
    Fault(F),
    NoMemory,
}

impl<F: Drop> From<OutOfMemory> for OrMemory<F> {
    ghost from_gives = { λ _ e. e ≡ NoMemory };

    fn from(_e: OutOfMemory) -> OrMemory<F> {
        OrMemory::NoMemory
    }
}

/// The refusal that says that a file can't be read.
pub(crate) fn cannot_read(alloc: Global, name: &Text) -> OrMemory<Refusal>
    ensures { IsOrMemory (Cause.CannotRead name.now) result }
{
    match name.copy(alloc) {
        Ok(name) => OrMemory::Fault(Refusal::CannotRead { name }),
        Err(_) => OrMemory::NoMemory,
    }
}

/// The refusal that says what a file is refused for.
pub(crate) fn refused(alloc: Global, name: &Text, fault: FileFault) -> OrMemory<Refusal>
    ensures { IsOrMemory (Cause.File name.now fault) result }
{
    match name.copy(alloc) {
        Ok(name) => OrMemory::Fault(Refusal::File { name, fault }),
        Err(_) => OrMemory::NoMemory,
    }
}
