//! Runs.

ghost use Rattle.std.specs.Prelude.{◌≡◌, [], map, None, IfOk, IfErr, OnOk};
ghost use Rattle.std.specs.Io.KnownBytes.{Appends};
ghost use Rattle.request_laws.specs.Works.{WorksStand};
ghost use Rattle.request_state.specs.Core.{core_of};
ghost use Rattle.inline_run.specs.Runs.{EndsEarly, IsCutRun, IsRun, Runs, RunsInto};
ghost use Rattle.inline_run.specs.Sending.{EndsAtFinish, EndsAtFlush, EndsOn, Finishes, FlushesAll, IsReportOf, StepsOn};
ghost use Rattle.inline_run.specs.Steps as spec;
ghost use Rattle.inline_run.specs.declared.run.RunFault.TheVariants.{OutOfMemory as Memory};

use crate::sending::go_on;
use crate::step;
use fizz_outside::Sink;
use fizz_piece::Plan;
use fizz_text::{OutOfMemory, Text};
use request_laws::{laws_of_standing_works, laws_of_transcripts};
use request_state::State;
use settle_script::{Event, Script};
use std::alloc::Global;

/// What a run sent: how many bytes, and in how many flushes.
#[derive(Clone, Copy, Debug, PartialEq, Eq)]
pub struct Report {
    pub written: u64,
    pub marks: u32,
}

/// Why a run ended early.
#[derive(Debug, Drop)]
pub enum RunFault {
    /// Something outside all boundaries failed, with this digest. Nothing was sent.
    ShellFailed { digest: Text },
    /// The sink failed, which its count of faults shows. A part of what the run sends is out.
    SinkFault,
    /// There was no memory. A part of what the run sends is out.
    OutOfMemory,
}

impl From<OutOfMemory> for RunFault {
    ghost from_gives = { λ _ e. e ≡ Memory };

    fn from(_e: OutOfMemory) -> RunFault {
        RunFault::OutOfMemory
    }
}

/// Renders a page: serves the lines of a script, then renders all that is left, lets fail what waits for what is never
/// settled, and sends the rest. What a flush appends goes to the sink at once, in pieces of the plan's `chunk` bytes.
pub fn run_inline<S: Sink>(
    alloc: Global,
    plan: Plan<'_>,
    script: &Script,
    out: &mut S,
) -> Result<Report, RunFault>
    ensures done { IfOk result (IsRun plan.entry script.now (S.contents out.old) (S.contents out.new)) }
    ensures ended { IfErr result (IsCutRun plan.entry script.now (S.contents out.old) (S.contents out.new)
        (S.faults out.old) (S.faults out.new)) }
{
    laws_of_standing_works();
    laws_of_transcripts();
    let mut state = State::new(alloc, plan)?;
    drive_inline(alloc, &mut state, script, out)
}

/// The same from a state on of which nothing is sent yet.
pub fn drive_inline<'a, S: Sink>(
    alloc: Global,
    state: &mut State<'a>,
    script: &Script,
    out: &mut S,
) -> Result<Report, RunFault>
    requires works { WorksStand state.old.plan (core_of state.old) }
    requires unsent { (core_of state.old).transcript ≡ [] }
    ensures done { IfOk result (RunsInto state.old.plan script.now (core_of state.old)
        (S.contents out.old) (S.contents out.new)) }
    ensures ended { IfErr result (EndsEarly state.old.plan script.now (core_of state.old)
        (S.contents out.old) (S.contents out.new) (S.faults out.old) (S.faults out.new)) }
    ensures plan { state.new.plan ≡ state.old.plan }
{
    run(alloc, state, script.events(), out)?;
    report_of(state)
}

/// Serves the lines and finishes.
fn run<'a, S: Sink>(
    alloc: Global,
    state: &mut State<'a>,
    lines: &[Event],
    out: &mut S,
) -> Result<(), RunFault>
    requires works { WorksStand state.old.plan (core_of state.old) }
    requires unsent { (core_of state.old).transcript ≡ [] }
    ensures runs { OnOk result (Runs state.old.plan lines.now (core_of state.old) (core_of state.new)) }
    ensures sent { OnOk result (Appends (S.contents out.old) (S.contents out.new) (core_of state.new).transcript) }
    ensures ended { IfErr result (EndsEarly state.old.plan lines.now (core_of state.old)
        (S.contents out.old) (S.contents out.new) (S.faults out.old) (S.faults out.new)) }
    ensures plan { state.new.plan ≡ state.old.plan }
{
    go_on(alloc, state, 0, out)?;
    serve_lines(alloc, state, lines, out)?;
    finish(alloc, state, out)
}

fn serve_lines<'a, S: Sink>(
    alloc: Global,
    state: &mut State<'a>,
    lines: &[Event],
    out: &mut S,
) -> Result<(), RunFault>
    requires works { WorksStand state.old.plan (core_of state.old) }
    requires sound { (core_of state.old).failure ≡ None }
    ensures stepped { OnOk result (StepsOn state.old.plan (map spec.line lines.now) (core_of state.old)
        (core_of state.new) (S.contents out.old) (S.contents out.new) (S.faults out.old) (S.faults out.new)) }
    ensures ended { IfErr result (EndsOn state.old.plan (map spec.line lines.now) (core_of state.old)
        (S.contents out.old) (S.contents out.new) (S.faults out.old) (S.faults out.new)) }
    ensures plan { state.new.plan ≡ state.old.plan }
{
    'lines: for line in lines {
        step::serve(alloc, state, line, out)?;
    }
    Ok(())
}

/// Renders and sends all that is left.
fn finish<'a, S: Sink>(alloc: Global, state: &mut State<'a>, out: &mut S) -> Result<(), RunFault>
    requires works { WorksStand state.old.plan (core_of state.old) }
    requires sound { (core_of state.old).failure ≡ None }
    ensures finished { OnOk result (Finishes state.old.plan (core_of state.old) (core_of state.new)
        (S.contents out.old) (S.contents out.new) (S.faults out.old) (S.faults out.new)) }
    ensures ended { IfErr result (EndsAtFinish state.old.plan (core_of state.old)
        (S.contents out.old) (S.contents out.new) (S.faults out.old) (S.faults out.new)) }
    ensures plan { state.new.plan ≡ state.old.plan }
{
    step::reclaim(alloc, state, out)?;
    step::serve(alloc, state, &Event::Work { count: 0 }, out)?;
    step::close(alloc, state, out)?;
    flush_all(alloc, state, out)
}

/// Flushes until nothing is left.
fn flush_all<'a, S: Sink>(alloc: Global, state: &mut State<'a>, out: &mut S) -> Result<(), RunFault>
    requires works { WorksStand state.old.plan (core_of state.old) }
    requires sound { (core_of state.old).failure ≡ None }
    ensures flushed { OnOk result (FlushesAll state.old.plan (core_of state.old) (core_of state.new)
        (S.contents out.old) (S.contents out.new) (S.faults out.old) (S.faults out.new)) }
    ensures ended { IfErr result (EndsAtFlush state.old.plan (core_of state.old)
        (S.contents out.old) (S.contents out.new) (S.faults out.old) (S.faults out.new)) }
    ensures plan { state.new.plan ≡ state.old.plan }
{
    'flushes: for done in 0..u32::MAX {
        if !step::flush(alloc, state, out)? {
            return Ok(());
        }
    }
    Err(RunFault::OutOfMemory)
}

/// What was sent.
fn report_of(state: &State<'_>) -> Result<Report, RunFault>
    ensures told { IfOk result (IsReportOf (core_of state.now)) }
    ensures memory { IfErr result (λ fault. fault ≡ Memory) }
{
    match u32::try_from(state.marks().len()) {
        Ok(marks) => Ok(Report {
            written: state.transcript().len() as u64,
            marks,
        }),
        Err(_) => Err(RunFault::OutOfMemory),
    }
}
