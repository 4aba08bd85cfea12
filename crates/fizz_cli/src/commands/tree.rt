//! `tree`: the final document of a component file under a settling script.

ghost use Rattle.std.specs.Prelude.{◌≡◌};
ghost use Rattle.jsx_syntax.specs.Rules.{IsApp};
ghost use Rattle.fizz_cli.specs.Ends.{Serves};
ghost use Rattle.fizz_cli.specs.Reports.{files_change, sink_change};
ghost use Rattle.fizz_cli.specs.Steps.{AcceptsOrRefuses, ReadsFiles};
ghost use Rattle.fizz_cli.specs.Trees.{PrintsPage, RefusesTree, RefusesTreePage, ShowsTree, settled_page};
ghost use Rattle.fizz_words.specs.declared.command.Command.TheVariants.{Tree};

use crate::refusal::Refusal;
use crate::sending::write;
use crate::steps::{Sources, read_sources, shown_page};
use crate::stop::{OrMemory, Stop};
use dom_forest::print_doc;
use fizz_outside::{Files, Sink};
use fizz_text::Text;
use settled_tree::{final_of, laws_of_forests};
use std::alloc::Global;

/// Writes the document. Nothing is written of a page that is refused.
pub(crate) fn serve<F: Files, S: Sink>(
    alloc: Global,
    app: &Text,
    script: &Text,
    prefix: &Text,
    files: &mut F,
    out: &mut S,
) -> Result<(), Stop>
    ensures { Serves (Tree app.now script.now prefix.now)
        (files_change (F.files files.old) (F.faults files.old) (F.files files.new) (F.faults files.new))
        (sink_change (S.contents out.old) (S.faults out.old) (S.contents out.new) (S.faults out.new)) result }
{
    let document = read(alloc, app, script, prefix, files)?;
    write(&document, out)
}

/// The final document that a component file and a script have, as it is printed.
fn read<F: Files>(
    alloc: Global,
    app: &Text,
    script: &Text,
    prefix: &Text,
    files: &mut F,
) -> Result<Vec<u8>, OrMemory<Refusal>>
    ensures { ReadsFiles (λ at document. ShowsTree at app.now script.now prefix.now document.items)
        (λ at. RefusesTree at app.now script.now prefix.now)
        (files_change (F.files files.old) (F.faults files.old) (F.files files.new) (F.faults files.new)) result }
{
    let sources = read_sources(alloc, files, app, script)?;
    document_of(alloc, app, &sources, prefix)
}

/// The final document of a page, as it is printed.
fn document_of(
    alloc: Global,
    app: &Text,
    sources: &Sources,
    prefix: &Text,
) -> Result<Vec<u8>, OrMemory<Refusal>>
    requires { IsApp sources.now.program }
    ensures { AcceptsOrRefuses (λ document. PrintsPage (settled_page sources.now prefix.now) document.items)
        (RefusesTreePage app.now (settled_page sources.now prefix.now)) result }
{
    laws_of_forests();
    match shown_page(alloc, app, sources, prefix) {
        Ok(forest) => Ok(print_doc(alloc, &final_of(alloc, &forest)?)?),
        Err(refused) => Err(refused),
    }
}
