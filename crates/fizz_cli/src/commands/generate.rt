//! `gen`: a generated page is rendered in memory, and one line says what it shows.

ghost use Rattle.std.specs.Prelude.{◌≡◌, ◌≤◌, ℕ, []};
ghost use Rattle.fizz_words.specs.declared.command.Command.TheVariants.{Gen, Render};
ghost use Rattle.fizz_cli.specs.Ends.{Serves};
ghost use Rattle.fizz_cli.specs.Generating.{RefusesGenerated, RendersGenerated, SumsUp, page_files};
ghost use Rattle.fizz_cli.specs.Rendering.{RendersFiles};
ghost use Rattle.fizz_cli.specs.Reports.{Change, FilesReport, sink_change};
ghost use Rattle.fizz_cli.specs.Steps.{AcceptsOrRefuses};
ghost use Rattle.fizz_cli.specs.Trees.{RefusesTree};
ghost use Rattle.fizz_words.specs.Commands.{IsInline};

use crate::commands::render;
use crate::generated::{GeneratedFiles, app_name, files_of, script_name};
use crate::refusal::Refusal;
use crate::sending::write;
use crate::stop::{OrMemory, Stop};
use crate::summary::summary_of;
use fizz_outside::{MemorySink, Sink};
use fizz_text::Text;
use fizz_words::Options;
use std::alloc::Global;

/// Writes the line. Nothing is written of a page that is refused.
pub(crate) fn serve<S: Sink>(alloc: Global, seed: u64, size: u32, out: &mut S) -> Result<(), Stop>
    requires some { 1 ≤ size }
    requires few { size ≤ 50000 }
    ensures { (workers : ℕ) (files : Change FilesReport) → files.after ≡ files.before → Serves (Gen seed size workers) files
        (sink_change (S.contents out.old) (S.faults out.old) (S.contents out.new) (S.faults out.new)) result }
{
    let line = line_on(alloc, seed, size)?;
    write(&line, out)
}

/// The line on the page of a seed and a size.
fn line_on(alloc: Global, seed: u64, size: u32) -> Result<Vec<u8>, OrMemory<Refusal>>
    requires some { 1 ≤ size }
    requires few { size ≤ 50000 }
    ensures { AcceptsOrRefuses (λ line. SumsUp seed size line.items) (RefusesGenerated seed size) result }
{
    let page = rendered(alloc, seed, size)?;
    Ok(summary_of(alloc, page.bytes())?)
}

/// The sink that holds the page, rendered.
fn rendered(alloc: Global, seed: u64, size: u32) -> Result<MemorySink, OrMemory<Refusal>>
    requires some { 1 ≤ size }
    requires few { size ≤ 50000 }
    ensures { AcceptsOrRefuses (λ page. RendersGenerated seed size page.bytes) (RefusesGenerated seed size) result }
{
    let mut files = files_of(alloc, seed, size)?;
    let mut page = MemorySink::new(alloc, Vec::new(alloc));
    let options = Options::standard();
    match render_to(
        alloc,
        &app_name(),
        &script_name(),
        &options,
        &mut files,
        &mut page,
    ) {
        Ok(()) => Ok(page),
        Err(refused) => Err(refused),
    }
}

/// Renders a page of generated files to an empty sink.
fn render_to(
    alloc: Global,
    app: &Text,
    script: &Text,
    options: &Options,
    files: &mut GeneratedFiles,
    page: &mut MemorySink,
) -> Result<(), OrMemory<Refusal>>
    requires inline { IsInline (Render app.now script.now options.now 0) }
    requires empty { page.old.bytes ≡ [] }
    ensures { AcceptsOrRefuses
        (λ done. RendersFiles (page_files files.old.page.app files.old.page.script.items) app.now script.now options.now page.new.bytes)
        (RefusesTree (page_files files.old.page.app files.old.page.script.items) app.now script.now options.now.prefix ⊥) result }
{
    match render::serve(alloc, app, script, options, files, page) {
        Ok(()) => Ok(()),
        Err(Stop::Refused(refusal)) => Err(OrMemory::Fault(refusal)),
        // A sink in memory fails in no call that isn't listed.
        Err(Stop::SinkFailed | Stop::OutOfMemory) => Err(OrMemory::NoMemory),
    }
}
