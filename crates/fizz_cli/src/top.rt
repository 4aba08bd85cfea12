ghost use Rattle.std.specs.Prelude.{◌≡◌};
ghost use Rattle.fizz_cli.specs.Calls.{ServesCommand, ServesWords};
ghost use Rattle.fizz_words.specs.Commands.{IsInline};
ghost use Rattle.fizz_cli.specs.Reports.{files_change, sink_change};
ghost use Rattle.fizz_cli.specs.Words.{reading_of};

use crate::commands::serve;
use crate::laws::laws_of_refusals;
use crate::sending::{NO_MEMORY, SINK_FAILED, send, tell};
use crate::stop::Stop;
use fizz_outside::{Files, Gate, Sink};
use fizz_text::Text;
use fizz_words::{Command, WordsFault, laws_of_words, read_words};
use std::alloc::Global;
use std::sync::Wait;
use std::thread::Threads;

/// The status of words that mean no command.
const USAGE: u8 = 2;

/// Serves a command on the calling thread, and answers the status that the program ends with: 0 done, 3 a file can't
/// be read, 4 a file is refused, 7 a sink failed, 8 no memory. Statuses 3 and 4 write one note.
pub fn fizz_inline<F: Files, S: Sink, N: Sink>(
    alloc: Global,
    command: &Command,
    files: &mut F,
    out: &mut S,
    notes: &mut N,
) -> u8
    requires { IsInline command.now }
    ensures { ServesCommand command.now
        (files_change (F.files files.old) (F.faults files.old) (F.files files.new) (F.faults files.new))
        (sink_change (S.contents out.old) (S.faults out.old) (S.contents out.new) (S.faults out.new))
        (sink_change (N.contents notes.old) (N.faults notes.old) (N.contents notes.new) (N.faults notes.new)) result }
{
    laws_of_refusals(command);
    match serve(alloc, command, files, out) {
        Ok(()) => 0,
        Err(Stop::Refused(refusal)) => tell(alloc, &refusal, notes),
        Err(Stop::SinkFailed) => SINK_FAILED,
        Err(Stop::OutOfMemory) => NO_MEMORY,
    }
}

/// Reads the words after the program's name and serves the command that they mean. Words that are wrong end with 2 and
/// a note that says what is wrong; words that ask for help or for the version are answered on the output, with 0. The
/// other statuses are those of `fizz_inline`.
pub fn fizz<R: Threads + Wait + Sync, F: Files, S: Sink, N: Sink, G: Gate + Sync>(
    _rt: &R,
    alloc: Global,
    words: &[Text],
    files: &mut F,
    out: &mut S,
    notes: &mut N,
    _gate: &G,
) -> u8
    ensures { ServesWords (reading_of words.now)
        (files_change (F.files files.old) (F.faults files.old) (F.files files.new) (F.faults files.new))
        (sink_change (S.contents out.old) (S.faults out.old) (S.contents out.new) (S.faults out.new))
        (sink_change (N.contents notes.old) (N.faults notes.old) (N.contents notes.new) (N.faults notes.new)) result }
{
    laws_of_words();
    match read_words(alloc, words) {
        Ok(command) => fizz_inline(alloc, &command, files, out, notes),
        Err(WordsFault::Usage { text }) => send(USAGE, text.as_bytes(), notes),
        Err(WordsFault::Told { text }) => send(0, text.as_bytes(), out),
        Err(WordsFault::PrefixTooLong { .. }) => send(USAGE, b"prefix too long\n", notes),
        Err(WordsFault::OutOfMemory) => NO_MEMORY,
    }
}
