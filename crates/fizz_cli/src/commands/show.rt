//! `show`: the settled document of a page file.

ghost use Rattle.std.specs.Prelude.{◌≡◌};
ghost use Rattle.fizz_cli.specs.Ends.{Serves};
ghost use Rattle.fizz_cli.specs.Reports.{files_change, sink_change};
ghost use Rattle.fizz_words.specs.declared.command.Command.TheVariants.{Show};

use crate::sending::write;
use crate::steps::read_page;
use crate::stop::Stop;
use fizz_outside::{Files, Sink};
use fizz_text::Text;
use std::alloc::Global;

/// Writes the document. Nothing is written of a page that is refused.
pub(crate) fn serve<F: Files, S: Sink>(
    alloc: Global,
    file: &Text,
    prefix: &Text,
    files: &mut F,
    out: &mut S,
) -> Result<(), Stop>
    ensures { Serves (Show file.now prefix.now)
        (files_change (F.files files.old) (F.faults files.old) (F.files files.new) (F.faults files.new))
        (sink_change (S.contents out.old) (S.faults out.old) (S.contents out.new) (S.faults out.new)) result }
{
    let document = read_page(alloc, files, file, prefix)?;
    write(&document, out)
}
