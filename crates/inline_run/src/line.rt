//! The lines of a script.

ghost use Rattle.std.specs.Prelude.{◌≡◌, OnOk};
ghost use Rattle.request_state.specs.Core.{core_of};
ghost use Rattle.request_laws.specs.Works.{WorksStand};
ghost use Rattle.inline_run.specs.Sending.{Steps};
ghost use Rattle.request_laws.specs.Transcripts.{SendsNothing};
ghost use Rattle.inline_run.specs.Steps as spec;
ghost use Rattle.inline_run.specs.Steps.{SettlesLine};

use crate::work::work;
use fizz_text::OutOfMemory;
use request_laws::{laws_of_standing_works, laws_of_transcripts};
use request_state::State;
use settle_script::Event;
use std::alloc::Global;

/// Does what a line says.
pub(crate) fn serve<'a>(
    alloc: Global,
    state: &mut State<'a>,
    line: &Event,
) -> Result<(), OutOfMemory>
    requires { WorksStand state.old.plan (core_of state.old) }
    ensures stepped { OnOk result (Steps state.old.plan (spec.line line.now) (core_of state.old) (core_of state.new)) }
    ensures plan { state.new.plan ≡ state.old.plan }
{
    laws_of_standing_works();
    laws_of_transcripts();
    match line {
        Event::Resolve { .. } => Ok(settle(state)),
        Event::Reject { .. } => Ok(settle(state)),
        Event::Work { count } => work(alloc, state, *count),
        Event::Flush { budget } => {
            state.flush(alloc, *budget)?;
            Ok(())
        }
    }
}

/// Settles the next outcome of the plan, if there is one.
fn settle(state: &mut State<'_>)
    requires { WorksStand state.old.plan (core_of state.old) }
    ensures settled { SettlesLine state.old.plan (core_of state.old) (core_of state.new) }
    ensures works { WorksStand state.old.plan (core_of state.new) }
    ensures silent { SendsNothing (core_of state.old) (core_of state.new) }
    ensures plan { state.new.plan ≡ state.old.plan }
{
    laws_of_standing_works();
    laws_of_transcripts();
    state.settle();
}
