ghost use Rattle.std.specs.Prelude.{◌≡◌, ◌+◌, ◌≤◌, ◌<◌, length, take, drop, MatchOption, IfSome, OnErr};
ghost use Rattle.std.specs.Io.KnownBytes.{Appends, Keeps};
ghost use Rattle.fizz_outside.specs.Sinks.{Takes, HasSinkCause};
ghost use Rattle.fizz_outside.specs.Faults.{FaultCounted};

use crate::sink::{Sink, SinkRefused};
use std::io::{ErrorKind, Write};

/// A sink over a writer, as standard output or standard error. Its contents are known where its
/// writer's are, which over those two they aren't. It counts each error of its writer as a fault.
#[derive(Drop)]
pub struct StdSink<W: Write> {
    writer: W,
    faults: u64,
}

impl<W: Write> StdSink<W> {
    pub fn new(writer: W) -> StdSink<W>
        ensures writer { result.writer ≡ writer }
        ensures faults { result.faults ≡ 0 }
    {
        StdSink { writer, faults: 0 }
    }

    /// One write, made again where it was interrupted: how many bytes were taken, or None where the
    /// writer failed or took nothing.
    fn write_some(&mut self, bytes: &[u8]) -> Option<usize>
        requires { 0 < length bytes.now }
        ensures taken { MatchOption result (Keeps (W.contents self.old.writer) (W.contents self.new.writer))
            (λ n. (0 < n) × (n ≤ length bytes.now)
            × Appends (W.contents self.old.writer) (W.contents self.new.writer) (take n bytes.now)) }
        ensures faults { self.new.faults ≡ self.old.faults }
    {
        'tries: for _ in 0..u64::MAX {
            match self.writer.write(bytes) {
                Ok(0) => return None,
                Ok(n) => return Some(n),
                Err(e) if e.kind() == ErrorKind::Interrupted => {}
                Err(_) => return None,
            }
        }
        None
    }
}

impl<W: Write> Sink for StdSink<W> {
    ghost contents = { λ s. W.contents s.writer };

    ghost faults = { λ s. s.faults };

    fn write_all(&mut self, bytes: &[u8]) -> Result<(), SinkRefused> {
        let mut at = 0;
        'pieces: while at < bytes.len() {
            match self.write_some(&bytes[at..]) {
                Some(n) => at += n,
                None => {
                    self.faults = self.faults.saturating_add(1);
                    return Err(SinkRefused::Failed);
                }
            }
        }
        Ok(())
    }
}
