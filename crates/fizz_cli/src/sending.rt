//! Bytes on their way to a sink.

ghost use Rattle.std.specs.Prelude.{◌≡◌, ◌≤◌};
ghost use Rattle.fizz_cli.specs.Ends.{SendsAll, WritesAll};
ghost use Rattle.fizz_cli.specs.Notes.{note_of};
ghost use Rattle.fizz_cli.specs.Refusals.{status_of};
ghost use Rattle.fizz_cli.specs.Reports.{sink_change};

use crate::note::note_of;
use crate::refusal::{Refusal, status_of};
use crate::stop::Stop;
use fizz_outside::{Sink, SinkRefused};
use std::alloc::Global;

pub(crate) const SINK_FAILED: u8 = 7;

pub(crate) const NO_MEMORY: u8 = 8;

/// Writes bytes to the output.
pub(crate) fn write<S: Sink>(bytes: &[u8], out: &mut S) -> Result<(), Stop>
    ensures { WritesAll bytes.now (sink_change (S.contents out.old) (S.faults out.old) (S.contents out.new) (S.faults out.new)) result }
{
    match out.write_all(bytes) {
        Ok(()) => Ok(()),
        Err(SinkRefused::Failed) => Err(Stop::SinkFailed),
        Err(SinkRefused::OutOfMemory) => Err(Stop::OutOfMemory),
    }
}

/// Sends a note, and ends with the status unless the sink refuses.
pub(crate) fn send<N: Sink>(status: u8, note: &[u8], notes: &mut N) -> u8
    ensures { SendsAll status note.now (sink_change (N.contents notes.old) (N.faults notes.old) (N.contents notes.new) (N.faults notes.new)) result }
{
    match notes.write_all(note) {
        Ok(()) => status,
        Err(SinkRefused::Failed) => SINK_FAILED,
        Err(SinkRefused::OutOfMemory) => NO_MEMORY,
    }
}

/// Tells why a command was refused, and ends with the status of that.
pub(crate) fn tell<N: Sink>(alloc: Global, refusal: &Refusal, notes: &mut N) -> u8
    ensures { SendsAll (status_of refusal.now) (note_of refusal.now)
        (sink_change (N.contents notes.old) (N.faults notes.old) (N.contents notes.new) (N.faults notes.new)) result }
{
    match note_of(alloc, refusal) {
        Ok(note) => send(status_of(refusal), &note, notes),
        Err(_) => NO_MEMORY,
    }
}
