//! The name of a resource.

ghost use Rattle.std.specs.Prelude.{◌≡◌, IfOk};

use fizz_text::{OutOfMemory, Text};
use std::alloc::Global;
use std::marker::Model;

/// The name of the resource for which a task waits. Contracts see it as the list of its bytes.
#[derive(Debug, Drop)]
pub struct Name {
    bytes: Vec<u8>,
}

impl Model for Name {
    ghost use Rattle.std.specs.Prelude.{List, ℕ};

    ghost Value = { List ℕ };

    ghost view = { λ n. n.bytes.items };
}

impl Name {
    /// The name that is this text.
    pub fn of(alloc: Global, text: &Text) -> Result<Name, OutOfMemory>
        ensures { IfOk result (λ name. name ≡ text.now) }
    {
        let bytes = Vec::from_slice(alloc, text.as_bytes())?;
        Ok(Name { bytes })
    }

    pub fn as_bytes(&self) -> &[u8]
        ensures { result.now ≡ self.now }
    {
        self.bytes.as_slice()
    }
}
