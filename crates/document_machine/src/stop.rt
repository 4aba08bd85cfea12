//! Whether a machine goes on.

ghost use Rattle.std.specs.Prelude.{◌≡◌, ◌≢◌, IfErr, OnErr, OnOk};
ghost use Rattle.document_machine.specs.MachineState.{AnswersAgain, IsMet, IsSameOrMemory, IsStopped};

use crate::fault::MachineFault;
use std::alloc::Global;

#[derive(Debug, Drop)]
pub(crate) enum Stop {
    GoesOn,
    /// It met a fault of the bytes, which every later call answers.
    Faulted(MachineFault),
    /// It wanted memory, as every later call says.
    NoMemory,
}

/// What a call answers before it does anything: the fault of an earlier call, or want of memory for that.
pub(crate) fn again(alloc: Global, stop: &mut Stop) -> Result<(), MachineFault>
    ensures goes_on { OnOk result ((stop.old ≡ Stop.GoesOn) × (stop.new ≡ Stop.GoesOn)) }
    ensures again { AnswersAgain stop.old result }
    ensures stopped { IfErr result (IsStopped stop.new) }
    ensures before { OnErr result (stop.old ≢ Stop.GoesOn) }
{
    match met(alloc, stop) {
        None => Ok(()),
        Some(MachineFault::OutOfMemory) => {
            *stop = Stop::NoMemory;
            Err(MachineFault::OutOfMemory)
        }
        Some(fault) => Err(fault),
    }
}

/// The fault of an earlier call.
fn met(alloc: Global, stop: &Stop) -> Option<MachineFault>
    ensures { IsMet stop.now result }
{
    match stop {
        Stop::GoesOn => None,
        Stop::NoMemory => Some(MachineFault::OutOfMemory),
        Stop::Faulted(fault) => match fault.copy(alloc) {
            Ok(fault) => Some(fault),
            Err(_) => Some(MachineFault::OutOfMemory),
        },
    }
}

/// Stops with a fault, and gives it back; or stops for want of memory.
pub(crate) fn stop_with(alloc: Global, stop: &mut Stop, fault: MachineFault) -> MachineFault
    ensures stopped { IsStopped stop.new result }
    ensures same { IsSameOrMemory fault result }
{
    match fault.copy(alloc) {
        Ok(kept) => {
            *stop = stop_of(kept);
            fault
        }
        Err(_) => {
            *stop = Stop::NoMemory;
            MachineFault::OutOfMemory
        }
    }
}

fn stop_of(fault: MachineFault) -> Stop
    ensures { IsStopped result fault }
{
    match fault {
        MachineFault::OutOfMemory => Stop::NoMemory,
        fault => Stop::Faulted(fault),
    }
}
