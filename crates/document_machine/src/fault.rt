//! Why bytes are no page's.

ghost use Rattle.std.specs.Prelude.{◌≡◌, IfOk};
ghost use Rattle.document_machine.specs.declared.fault.MachineFault.TheVariants.{OutOfMemory as Memory};

use fizz_text::{OutOfMemory, Text};
use std::alloc::{AllocFailed, Global};

/// What the machine met. `at` is the place of the first byte of the token that can't be followed, or of the byte with
/// which the bytes can't go on, or of what the bytes end in.
#[derive(Debug, Drop)]
pub enum MachineFault {
    /// The bytes are not of the form of a page, its tags don't nest, or a script is no instruction.
    Html { at: usize },
    /// A script calls a function that no script defined.
    UnknownFunction { at: usize },
    /// A script names the id of a container or of a placeholder that is not there.
    NoSuchId { at: usize, id: Text },
    /// A script names a template that belongs to no boundary.
    NotBoundary { at: usize },
    OutOfMemory,
}

impl MachineFault {
    /// An equal fault.
    pub(crate) fn copy(&self, alloc: Global) -> Result<MachineFault, OutOfMemory>
        ensures { IfOk result (λ fault. fault ≡ self.now) }
    {
        Ok(match self {
            MachineFault::Html { at } => MachineFault::Html { at: *at },
            MachineFault::UnknownFunction { at } => MachineFault::UnknownFunction { at: *at },
            MachineFault::NoSuchId { at, id } => MachineFault::NoSuchId {
                at: *at,
                id: id.copy(alloc)?,
            },
            MachineFault::NotBoundary { at } => MachineFault::NotBoundary { at: *at },
            MachineFault::OutOfMemory => MachineFault::OutOfMemory,
        })
    }
}

impl From<OutOfMemory> for MachineFault {
    ghost from_gives = { λ _ e. e ≡ Memory };

    fn from(_error: OutOfMemory) -> MachineFault {
        MachineFault::OutOfMemory
    }
}

impl<T: Drop> From<AllocFailed<T>> for MachineFault {
    ghost from_gives = { λ _ e. e ≡ Memory };

    fn from(_error: AllocFailed<T>) -> MachineFault {
        MachineFault::OutOfMemory
    }
}
