//! The settling script of a page.

ghost use Rattle.std.specs.Prelude.{◌≡◌};
ghost use Rattle.settle_script.specs.Scripts.{IsScript};
ghost use Rattle.fizz_cli.specs.Reports.{files_change};
ghost use Rattle.fizz_cli.specs.ScriptFaults.{fault_of};
ghost use Rattle.fizz_cli.specs.ScriptFiles.{AcceptsScript, RefusesScript, RefusesScriptBytes};
ghost use Rattle.fizz_cli.specs.Steps.{AcceptsOrRefuses, ReadsFiles};

use super::read_file::read_file;
use crate::refusal::{FileFault, Refusal, ScriptFault};
use crate::stop::{OrMemory, refused};
use fizz_outside::Files;
use fizz_text::Text;
use settle_script::{Script, ScriptFault as Fault};
use std::alloc::Global;

/// The most bytes that a script may have.
const MOST_BYTES: usize = 16_777_216;

/// The script in a file.
pub(crate) fn read_script<F: Files>(
    alloc: Global,
    files: &mut F,
    name: &Text,
) -> Result<Script, OrMemory<Refusal>>
    ensures { ReadsFiles (λ at script. AcceptsScript (at name.now) script)
        (λ at faulted. RefusesScript faulted name.now (at name.now))
        (files_change (F.files files.old) (F.faults files.old) (F.files files.new) (F.faults files.new)) result }
{
    let bytes = read_file(alloc, files, name, MOST_BYTES)?;
    match script_of(alloc, &bytes) {
        Ok(script) => Ok(script),
        Err(OrMemory::Fault(fault)) => Err(refused(alloc, name, FileFault::Script(fault))),
        Err(OrMemory::NoMemory) => Err(OrMemory::NoMemory),
    }
}

/// The script that the bytes are.
fn script_of(alloc: Global, bytes: &[u8]) -> Result<Script, OrMemory<ScriptFault>>
    ensures { AcceptsOrRefuses (IsScript bytes.now) (RefusesScriptBytes bytes.now) result }
{
    match settle_script::read_script(alloc, bytes) {
        Ok(script) => Ok(script),
        Err(fault) => Err(fault_of(fault)),
    }
}

fn fault_of(fault: Fault) -> OrMemory<ScriptFault>
    ensures { result ≡ fault_of fault }
{
    match fault {
        Fault::NotJson => OrMemory::Fault(ScriptFault::NotJson),
        Fault::TooManyEvents { count } => OrMemory::Fault(ScriptFault::TooManyEvents { count }),
        Fault::NotEvent { index } => OrMemory::Fault(ScriptFault::NotEvent { index }),
        Fault::DigestTooLong { index, length } => {
            OrMemory::Fault(ScriptFault::DigestTooLong { index, length })
        }
        Fault::BadValue { index } => OrMemory::Fault(ScriptFault::BadValue { index }),
        Fault::SettledTwice { index, first } => {
            OrMemory::Fault(ScriptFault::SettledTwice { index, first })
        }
        Fault::OutOfMemory => OrMemory::NoMemory,
    }
}
