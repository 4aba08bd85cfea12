//! `render`: the page of a component file under a settling script.

ghost use Rattle.std.specs.Prelude.{◌≡◌, ◌≤◌, ℕ, length, IfOk};
ghost use Rattle.jsx_syntax.specs.Rules.{IsApp};
ghost use Rattle.fizz_words.specs.Commands.{IsInline};
ghost use Rattle.fizz_cli.specs.Ends.{Serves};
ghost use Rattle.fizz_cli.specs.Rendering.{plan_options};
ghost use Rattle.fizz_cli.specs.Reports.{files_change, sink_change};
ghost use Rattle.fizz_cli.specs.Sending.{IsReady, IsReadyOf, IsSendable, IsSettledAs, RunsInto, SendsReady, StreamsInto};
ghost use Rattle.fizz_cli.specs.Steps.{AcceptsOrRefuses, ReadsFiles};
ghost use Rattle.fizz_cli.specs.Trees.{IsShown, RefusesTree, RefusesTreePage, settled_page};
ghost use Rattle.fizz_words.specs.declared.command.Command.TheVariants.{Render};

use crate::refusal::Refusal;
use crate::sending::write;
use crate::steps::{Sources, read_sources, shown_page};
use crate::still::{MOST_OPEN, are_still};
use crate::stop::{OrMemory, Stop};
use dom_forest::print_doc;
use fizz_outside::{Files, Sink};
use fizz_piece::{Options as PlanOptions, Plan};
use fizz_text::{OutOfMemory, Text};
use fizz_words::Options;
use html_names::laws_of_names;
use inline_run::{RunFault, run_inline};
use page_laws::laws_of_printed_documents;
use settle_script::Script;
use settled_tree::{final_of, laws_of_forests};
use std::alloc::Global;

/// Sends the page. Nothing is sent of a page that is refused.
pub(crate) fn serve<F: Files, S: Sink>(
    alloc: Global,
    app: &Text,
    script: &Text,
    options: &Options,
    files: &mut F,
    out: &mut S,
) -> Result<(), Stop>
    requires { IsInline (Render app.now script.now options.now 0) }
    ensures { (workers : ℕ) → Serves (Render app.now script.now options.now workers)
        (files_change (F.files files.old) (F.faults files.old) (F.files files.new) (F.faults files.new))
        (sink_change (S.contents out.old) (S.faults out.old) (S.contents out.new) (S.faults out.new)) result }
{
    let ready = read(alloc, app, script, &options.prefix, files)?;
    send(alloc, &ready, options, out)
}

/// A page that is ready to be sent: what it is made of, and its bytes if it stands still.
#[derive(Drop)]
pub(crate) struct Ready {
    sources: Sources,
    still: Option<Vec<u8>>,
}

/// The page that a component file and a script have.
fn read<F: Files>(
    alloc: Global,
    app: &Text,
    script: &Text,
    prefix: &Text,
    files: &mut F,
) -> Result<Ready, OrMemory<Refusal>>
    ensures reads { ReadsFiles (λ at ready. IsReadyOf at app.now script.now prefix.now ready)
        (λ at. RefusesTree at app.now script.now prefix.now)
        (files_change (F.files files.old) (F.faults files.old) (F.files files.new) (F.faults files.new)) result }
    ensures sound { IfOk result (IsSendable prefix.now) }
{
    let sources = read_sources(alloc, files, app, script)?;
    ready_of(alloc, app, sources, prefix)
}

fn ready_of(
    alloc: Global,
    app: &Text,
    sources: Sources,
    prefix: &Text,
) -> Result<Ready, OrMemory<Refusal>>
    requires { IsApp sources.program }
    ensures ready { AcceptsOrRefuses (IsReady sources prefix.now)
        (RefusesTreePage app.now (settled_page sources prefix.now)) result }
    ensures sound { IfOk result (IsSendable prefix.now) }
{
    match still_bytes(alloc, app, &sources, prefix) {
        Ok(still) => Ok(Ready { sources, still }),
        Err(refused) => Err(refused),
    }
}

/// The bytes of a page that stands still, and none of one that may come late.
fn still_bytes(
    alloc: Global,
    app: &Text,
    sources: &Sources,
    prefix: &Text,
) -> Result<Option<Vec<u8>>, OrMemory<Refusal>>
    requires { IsApp sources.now.program }
    ensures { AcceptsOrRefuses (IsSettledAs (settled_page sources.now prefix.now))
        (RefusesTreePage app.now (settled_page sources.now prefix.now)) result }
{
    laws_of_forests();
    laws_of_names();
    laws_of_printed_documents();
    let forest = match shown_page(alloc, app, sources, prefix) {
        Ok(forest) => forest,
        Err(refused) => return Err(refused),
    };
    if !are_still(prefix, forest.nodes.as_slice(), MOST_OPEN) {
        return Ok(None);
    }
    Ok(Some(print_doc(alloc, &final_of(alloc, &forest)?)?))
}

/// Sends a page that is ready.
fn send<S: Sink>(alloc: Global, ready: &Ready, options: &Options, out: &mut S) -> Result<(), Stop>
    requires ready { IsSendable options.now.prefix ready.now }
    requires short { length options.now.prefix ≤ 64 }
    requires some { 1 ≤ options.now.chunk }
    ensures { SendsReady ready.now.sources options.now
        (sink_change (S.contents out.old) (S.faults out.old) (S.contents out.new) (S.faults out.new)) result }
{
    match &ready.still {
        Some(bytes) => write(bytes, out),
        None => stream(alloc, &ready.sources, options, out),
    }
}

/// Streams a page, as its script settles.
fn stream<S: Sink>(
    alloc: Global,
    sources: &Sources,
    options: &Options,
    out: &mut S,
) -> Result<(), Stop>
    requires app { IsApp sources.now.program }
    requires shown { IsShown (settled_page sources.now options.now.prefix) }
    requires short { length options.now.prefix ≤ 64 }
    requires some { 1 ≤ options.now.chunk }
    ensures { StreamsInto sources.now options.now
        (sink_change (S.contents out.old) (S.faults out.old) (S.contents out.new) (S.faults out.new)) result }
{
    let Ok(options) = plan_options(alloc, options) else {
        return Err(Stop::OutOfMemory);
    };
    let plan = Plan {
        app: &sources.program,
        outcomes: sources.script.outcomes(),
        options: &options,
    };
    run(alloc, plan, &sources.script, out)
}

/// Runs a script on one thread.
fn run<S: Sink>(alloc: Global, plan: Plan<'_>, script: &Script, out: &mut S) -> Result<(), Stop>
    ensures { RunsInto plan.entry script.now
        (sink_change (S.contents out.old) (S.faults out.old) (S.contents out.new) (S.faults out.new)) result }
{
    match run_inline(alloc, plan, script, out) {
        Ok(_) => Ok(()),
        Err(RunFault::SinkFault) => Err(Stop::SinkFailed),
        // The shell of a page that is shown doesn't fail.
        Err(RunFault::ShellFailed { .. } | RunFault::OutOfMemory) => Err(Stop::OutOfMemory),
    }
}

fn plan_options(alloc: Global, options: &Options) -> Result<PlanOptions, OutOfMemory>
    ensures { IfOk result (λ copy. copy ≡ plan_options options.now) }
{
    Ok(PlanOptions {
        prefix: options.prefix.copy(alloc)?,
        progressive: options.progressive,
        chunk: options.chunk,
    })
}
