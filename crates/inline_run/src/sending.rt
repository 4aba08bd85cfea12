//! Bytes on their way to a sink.

ghost use Rattle.std.specs.Prelude.{◌≡◌, ◌≤◌, ◌<◌, None, Some, drop, length, OnOk, IfErr};
ghost use Rattle.std.specs.Io.KnownBytes.{Appends};
ghost use Rattle.fizz_outside.specs.Sinks.{HasSinkCause, Takes};
ghost use Rattle.request_state.specs.Core.{core_of};
ghost use Rattle.inline_run.specs.Sending.{EndsSending, IsFailure};

use crate::run::RunFault;
use fizz_outside::{Sink, SinkRefused};
use fizz_text::Text;
use request_state::{Fate, State};
use std::alloc::Global;

/// Sends what was appended to the transcript from this place on, unless the shell has failed.
pub(crate) fn go_on<S: Sink>(
    alloc: Global,
    state: &State<'_>,
    from: usize,
    out: &mut S,
) -> Result<(), RunFault>
    requires { from ≤ length (core_of state.now).transcript }
    ensures sound { OnOk result ((core_of state.now).failure ≡ None) }
    ensures sent { OnOk result (Appends (S.contents out.old) (S.contents out.new)
        (drop from (core_of state.now).transcript)) }
    ensures ended { IfErr result (EndsSending (core_of state.now) (drop from (core_of state.now).transcript)
        (S.contents out.old) (S.contents out.new) (S.faults out.old) (S.faults out.new)) }
    ensures later { S.faults out.old ≤ S.faults out.new }
{
    if let Fate::ShellFailed { digest } = state.fate() {
        return Err(shell_failed(alloc, state, digest));
    }
    let chunk = state.plan().options.chunk as usize;
    match send(&state.transcript()[from..], chunk, out) {
        Ok(()) => Ok(()),
        Err(SinkRefused::Failed) => Err(RunFault::SinkFault),
        Err(SinkRefused::OutOfMemory) => Err(RunFault::OutOfMemory),
    }
}

/// The fault of a shell that failed with this digest, before anything was sent.
fn shell_failed(alloc: Global, state: &State<'_>, digest: &Text) -> RunFault
    ensures { IsFailure digest.now (core_of state.now).transcript result }
{
    if !state.transcript().is_empty() {
        return RunFault::OutOfMemory;
    }
    match digest.copy(alloc) {
        Ok(digest) => RunFault::ShellFailed { digest },
        Err(_) => RunFault::OutOfMemory,
    }
}

/// Writes bytes in pieces of this many, of which the last may be shorter. Where there is no byte, nothing is written.
fn send<S: Sink>(bytes: &[u8], chunk: usize, out: &mut S) -> Result<(), SinkRefused>
    requires { 0 < chunk }
    ensures bytes { Takes (S.contents out.old) (S.contents out.new) bytes.now result }
    ensures cause { HasSinkCause (S.faults out.old) (S.faults out.new) result }
{
    let mut at = 0;
    'pieces: while at < bytes.len() {
        let end = bytes.len().min(at.saturating_add(chunk));
        out.write_all(&bytes[at..end])?;
        at = end;
    }
    Ok(())
}
