//! What a page is made of: a component file and a settling script.

ghost use Rattle.std.specs.Prelude.{◌≡◌, IfOk};
ghost use Rattle.jsx_syntax.specs.Rules.{IsApp};
ghost use Rattle.fizz_cli.specs.Reports.{files_change};
ghost use Rattle.fizz_cli.specs.Sources.{AcceptsSources, RefusesSources};
ghost use Rattle.fizz_cli.specs.Steps.{ReadsFiles};

use super::program_file::read_program;
use super::script_file::read_script;
use crate::refusal::Refusal;
use crate::stop::OrMemory;
use fizz_outside::Files;
use fizz_text::Text;
use jsx_syntax::App;
use settle_script::Script;
use std::alloc::Global;

/// A program and a script.
#[derive(Drop)]
pub(crate) struct Sources {
    pub(crate) program: App,
    pub(crate) script: Script,
}

/// The program and the script in two files.
pub(crate) fn read_sources<F: Files>(
    alloc: Global,
    files: &mut F,
    app: &Text,
    script: &Text,
) -> Result<Sources, OrMemory<Refusal>>
    ensures reads { ReadsFiles (λ at sources. AcceptsSources at app.now script.now sources)
        (λ at. RefusesSources at app.now script.now)
        (files_change (F.files files.old) (F.faults files.old) (F.files files.new) (F.faults files.new)) result }
    ensures sound { IfOk result (λ sources. IsApp sources.program) }
{
    let program = read_program(alloc, files, app)?;
    let script = read_script(alloc, files, script)?;
    Ok(Sources { program, script })
}
