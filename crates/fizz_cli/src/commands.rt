//! The commands, each served by a function that is handed the output.

mod generate;
mod render;
mod show;
mod tree;

ghost use Rattle.std.specs.Prelude.{◌≡◌};
ghost use Rattle.fizz_words.specs.Commands.{IsInline};
ghost use Rattle.fizz_cli.specs.Ends.{Serves};
ghost use Rattle.fizz_cli.specs.Reports.{files_change, sink_change};

use crate::stop::Stop;
use fizz_outside::{Files, Sink};
use fizz_words::Command;
use std::alloc::Global;

/// Serves a command: writes to the output and to files what it is to write, unless it is refused.
pub(crate) fn serve<F: Files, S: Sink>(
    alloc: Global,
    command: &Command,
    files: &mut F,
    out: &mut S,
) -> Result<(), Stop>
    requires { IsInline command.now }
    ensures { Serves command.now
        (files_change (F.files files.old) (F.faults files.old) (F.files files.new) (F.faults files.new))
        (sink_change (S.contents out.old) (S.faults out.old) (S.contents out.new) (S.faults out.new)) result }
{
    match command {
        Command::Render {
            app,
            script,
            options,
            ..
        } => render::serve(alloc, app, script, options, files, out),
        Command::Show { file, prefix } => show::serve(alloc, file, prefix, files, out),
        Command::Tree {
            app,
            script,
            prefix,
        } => tree::serve(alloc, app, script, prefix, files, out),
        Command::Gen { seed, size, .. } => generate::serve(alloc, *seed, *size, out),
    }
}
