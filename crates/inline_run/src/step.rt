//! The steps of a run: each changes the state, and then what it appended to the transcript is sent.

ghost use Rattle.std.specs.Prelude.{◌≡◌, ◌↔◌, ◌∷◌, [], None, IfOk, OnOk, IfErr, IsFalse};
ghost use Rattle.settle_script.specs.declared.event.Event.TheVariants.{Flush};
ghost use Rattle.flush_queues.specs.Queues.{HasNothingQueued};
ghost use Rattle.request_state.specs.Core.{core_of};
ghost use Rattle.request_laws.specs.Works.{WorksStand};
ghost use Rattle.inline_run.specs.Sending.{EndsOn, StepsOn};
ghost use Rattle.inline_run.specs.Steps as spec;

use crate::line;
use crate::run::RunFault;
use crate::sending::go_on;
use fizz_outside::Sink;
use request_laws::{laws_of_standing_works, laws_of_transcripts};
use request_state::State;
use settle_script::Event;
use std::alloc::Global;

/// Serves a line of a script.
pub(crate) fn serve<'a, S: Sink>(
    alloc: Global,
    state: &mut State<'a>,
    line: &Event,
    out: &mut S,
) -> Result<(), RunFault>
    requires works { WorksStand state.old.plan (core_of state.old) }
    requires sound { (core_of state.old).failure ≡ None }
    ensures stepped { OnOk result (StepsOn state.old.plan (spec.line line.now ∷ []) (core_of state.old) (core_of state.new)
        (S.contents out.old) (S.contents out.new) (S.faults out.old) (S.faults out.new)) }
    ensures ended { IfErr result (EndsOn state.old.plan (spec.line line.now ∷ []) (core_of state.old)
        (S.contents out.old) (S.contents out.new) (S.faults out.old) (S.faults out.new)) }
    ensures plan { state.new.plan ≡ state.old.plan }
{
    let from = state.transcript().len();
    line::serve(alloc, state, line)?;
    go_on(alloc, state, from, out)
}

/// What is claimed becomes runnable again.
pub(crate) fn reclaim<'a, S: Sink>(
    alloc: Global,
    state: &mut State<'a>,
    out: &mut S,
) -> Result<(), RunFault>
    requires works { WorksStand state.old.plan (core_of state.old) }
    requires sound { (core_of state.old).failure ≡ None }
    ensures stepped { OnOk result (StepsOn state.old.plan (spec.reclaim ∷ []) (core_of state.old) (core_of state.new)
        (S.contents out.old) (S.contents out.new) (S.faults out.old) (S.faults out.new)) }
    ensures ended { IfErr result (EndsOn state.old.plan (spec.reclaim ∷ []) (core_of state.old)
        (S.contents out.old) (S.contents out.new) (S.faults out.old) (S.faults out.new)) }
    ensures plan { state.new.plan ≡ state.old.plan }
{
    laws_of_standing_works();
    laws_of_transcripts();
    let from = state.transcript().len();
    state.reclaim(alloc)?;
    go_on(alloc, state, from, out)
}

/// What waits for what is never settled fails.
pub(crate) fn close<'a, S: Sink>(
    alloc: Global,
    state: &mut State<'a>,
    out: &mut S,
) -> Result<(), RunFault>
    requires works { WorksStand state.old.plan (core_of state.old) }
    requires sound { (core_of state.old).failure ≡ None }
    ensures stepped { OnOk result (StepsOn state.old.plan (spec.close ∷ []) (core_of state.old) (core_of state.new)
        (S.contents out.old) (S.contents out.new) (S.faults out.old) (S.faults out.new)) }
    ensures ended { IfErr result (EndsOn state.old.plan (spec.close ∷ []) (core_of state.old)
        (S.contents out.old) (S.contents out.new) (S.faults out.old) (S.faults out.new)) }
    ensures plan { state.new.plan ≡ state.old.plan }
{
    laws_of_standing_works();
    laws_of_transcripts();
    let from = state.transcript().len();
    match state.close(alloc) {
        Ok(_) => go_on(alloc, state, from, out),
        Err(_) => Err(RunFault::OutOfMemory),
    }
}

/// Flushes all that can be sent, and tells whether something is left.
pub(crate) fn flush<'a, S: Sink>(
    alloc: Global,
    state: &mut State<'a>,
    out: &mut S,
) -> Result<bool, RunFault>
    requires works { WorksStand state.old.plan (core_of state.old) }
    requires sound { (core_of state.old).failure ≡ None }
    ensures stepped { OnOk result (StepsOn state.old.plan (spec.line (Flush 0) ∷ []) (core_of state.old) (core_of state.new)
        (S.contents out.old) (S.contents out.new) (S.faults out.old) (S.faults out.new)) }
    ensures ended { IfErr result (EndsOn state.old.plan (spec.line (Flush 0) ∷ []) (core_of state.old)
        (S.contents out.old) (S.contents out.new) (S.faults out.old) (S.faults out.new)) }
    ensures more { IfOk result (λ more. IsFalse more ↔ HasNothingQueued (core_of state.new).queues) }
    ensures plan { state.new.plan ≡ state.old.plan }
{
    laws_of_standing_works();
    laws_of_transcripts();
    let from = state.transcript().len();
    let flushed = state.flush(alloc, 0)?;
    go_on(alloc, state, from, out)?;
    Ok(flushed.more)
}
