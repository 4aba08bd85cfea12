//! Works, one after another.

ghost use Rattle.std.specs.Prelude.{◌≡◌, ◌<◌, false, true, Ok, IfOk, OnOk};
ghost use Rattle.fizz_task.specs.Calls.{HasNoClaim};
ghost use Rattle.request_state.specs.Core.{core_of};
ghost use Rattle.request_laws.specs.Works.{WorksStand};
ghost use Rattle.request_laws.specs.Transcripts.{SendsNothing};
ghost use Rattle.request_state.specs.Committing.{CommitsPiece};
ghost use Rattle.inline_run.specs.Steps.{WorksLine, WorksOnce};

use fizz_piece::{Piece, render_piece};
use fizz_text::OutOfMemory;
use request_laws::{laws_of_standing_works, laws_of_transcripts};
use request_state::State;
use std::alloc::Global;

/// Claims the first work, renders it, and has its piece taken. `false` where nothing can be claimed.
fn work_once<'a>(alloc: Global, state: &mut State<'a>) -> Result<bool, OutOfMemory>
    requires { WorksStand state.old.plan (core_of state.old) }
    ensures worked { result ≡ Ok true → WorksOnce state.old.plan (core_of state.old) (core_of state.new) }
    ensures nothing { result ≡ Ok false →
        HasNoClaim (core_of state.old).tasks × (core_of state.new ≡ core_of state.old) }
    ensures works { OnOk result (WorksStand state.old.plan (core_of state.new)) }
    ensures silent { OnOk result (SendsNothing (core_of state.old) (core_of state.new)) }
    ensures plan { state.new.plan ≡ state.old.plan }
{
    laws_of_standing_works();
    laws_of_transcripts();
    let plan = state.plan();
    let Some(work) = state.claim() else {
        return Ok(false);
    };
    match render_piece(alloc, &plan, work) {
        Ok(piece) => commit(alloc, state, piece),
        Err(_) => Err(OutOfMemory),
    }
}

/// Has a piece taken.
fn commit<'a>(alloc: Global, state: &mut State<'a>, piece: Piece<'a>) -> Result<bool, OutOfMemory>
    ensures taken { IfOk result (λ taken. (taken ≡ true)
        × CommitsPiece state.old.plan.outcomes.now piece.entry (core_of state.old) (core_of state.new)) }
    ensures plan { state.new.plan ≡ state.old.plan }
{
    match state.commit(alloc, piece) {
        Ok(()) => Ok(true),
        Err(_) => Err(OutOfMemory),
    }
}

/// Renders as many works as a line says, fewer where nothing can be claimed; 0 stands for all.
pub(crate) fn work<'a>(alloc: Global, state: &mut State<'a>, count: u32) -> Result<(), OutOfMemory>
    requires { WorksStand state.old.plan (core_of state.old) }
    ensures worked { OnOk result (WorksLine state.old.plan count (core_of state.old) (core_of state.new)) }
    ensures works { OnOk result (WorksStand state.old.plan (core_of state.new)) }
    ensures silent { OnOk result (SendsNothing (core_of state.old) (core_of state.new)) }
    ensures plan { state.new.plan ≡ state.old.plan }
{
    if count == 0 {
        work_all(alloc, state)
    } else {
        work_some(alloc, state, count)
    }
}

/// Renders works until nothing can be claimed.
fn work_all<'a>(alloc: Global, state: &mut State<'a>) -> Result<(), OutOfMemory>
    requires { WorksStand state.old.plan (core_of state.old) }
    ensures worked { OnOk result (WorksLine state.old.plan 0 (core_of state.old) (core_of state.new)) }
    ensures works { OnOk result (WorksStand state.old.plan (core_of state.new)) }
    ensures silent { OnOk result (SendsNothing (core_of state.old) (core_of state.new)) }
    ensures plan { state.new.plan ≡ state.old.plan }
{
    'works: for done in 0..u64::MAX {
        if !work_once(alloc, state)? {
            return Ok(());
        }
    }
    Err(OutOfMemory)
}

/// Renders so many works, fewer where nothing can be claimed.
fn work_some<'a>(alloc: Global, state: &mut State<'a>, count: u32) -> Result<(), OutOfMemory>
    requires works { WorksStand state.old.plan (core_of state.old) }
    requires some { 0 < count }
    ensures worked { OnOk result (WorksLine state.old.plan count (core_of state.old) (core_of state.new)) }
    ensures works { OnOk result (WorksStand state.old.plan (core_of state.new)) }
    ensures silent { OnOk result (SendsNothing (core_of state.old) (core_of state.new)) }
    ensures plan { state.new.plan ≡ state.old.plan }
{
    'works: for done in 0..count {
        if !work_once(alloc, state)? {
            return Ok(());
        }
    }
    Ok(())
}
