ghost use Rattle.std.specs.Prelude.{◌≡◌, Option, List, ℕ};
ghost use Rattle.fizz_outside.specs.Sinks.{Takes, HasSinkCause};

use thiserror::Error;

/// Why a sink refused.
#[derive(Clone, Copy, Debug, PartialEq, Eq, Error)]
pub enum SinkRefused {
    /// A fault of what is below it, which its count shows.
    #[error("the sink failed")]
    Failed,
    #[error("out of memory")]
    OutOfMemory,
}

/// Where bytes go, in order.
pub trait Sink {
    /// The bytes that it holds, where they are known.
    ghost contents: { Self → Option (List ℕ) };

    /// How many faults it met. The count never falls.
    ghost faults: { Self → ℕ };

    /// Appends the bytes. A refusal appended a prefix of them, and `Failed` comes only where the count
    /// of faults rose.
    fn write_all(&mut self, bytes: &[u8]) -> Result<(), SinkRefused>
        ensures bytes { Takes (contents self.old) (contents self.new) bytes.now result }
        ensures cause { HasSinkCause (faults self.old) (faults self.new) result };
}
