//! The component file of a page, read as a program.

ghost use Rattle.std.specs.Prelude.{◌≡◌, IfOk};
ghost use Rattle.jsx_syntax.specs.Rules.{IsApp};
ghost use Rattle.fizz_cli.specs.ProgramFaults.{check_fault, lex_fault, syntax_fault};
ghost use Rattle.fizz_cli.specs.ProgramFiles.{AcceptsProgram, IsProgram, RefusesProgram, RefusesProgramBytes};
ghost use Rattle.fizz_cli.specs.Reports.{files_change};
ghost use Rattle.fizz_cli.specs.Steps.{AcceptsOrRefuses, ReadsFiles};

use super::read_file::read_file;
use crate::refusal::{FileFault, ProgramFault, Refusal};
use crate::stop::{OrMemory, refused};
use fizz_outside::Files;
use fizz_text::Text;
use jsx_check::{CheckFault, check};
use jsx_lex::{LexFault, lex};
use jsx_syntax::{App, SyntaxFault, parse};
use std::alloc::Global;

/// The most bytes that a component file may have.
const MOST_BYTES: usize = 262_144;

/// The program in a file.
pub(crate) fn read_program<F: Files>(
    alloc: Global,
    files: &mut F,
    name: &Text,
) -> Result<App, OrMemory<Refusal>>
    ensures reads { ReadsFiles (λ at program. AcceptsProgram (at name.now) program)
        (λ at faulted. RefusesProgram faulted name.now (at name.now))
        (files_change (F.files files.old) (F.faults files.old) (F.files files.new) (F.faults files.new)) result }
    ensures sound { IfOk result IsApp }
{
    let bytes = read_file(alloc, files, name, MOST_BYTES)?;
    match program_of(alloc, &bytes) {
        Ok(program) => Ok(program),
        Err(OrMemory::Fault(fault)) => Err(refused(alloc, name, FileFault::Program(fault))),
        Err(OrMemory::NoMemory) => Err(OrMemory::NoMemory),
    }
}

/// The program that the bytes of a component file are.
fn program_of(alloc: Global, bytes: &[u8]) -> Result<App, OrMemory<ProgramFault>>
    ensures { AcceptsOrRefuses (IsProgram bytes.now) (RefusesProgramBytes bytes.now) result }
{
    if let Err(e) = str::from_utf8(bytes) {
        let valid = e.valid_up_to();
        return Err(OrMemory::Fault(ProgramFault::NotUtf8 { valid }));
    }
    let tokens = match lex(alloc, bytes) {
        Ok(tokens) => tokens,
        Err(fault) => return Err(lex_fault(fault)),
    };
    let file = match parse(alloc, tokens.as_slice(), bytes) {
        Ok(file) => file,
        Err(fault) => return Err(syntax_fault(fault)),
    };
    match check(alloc, file) {
        Ok(program) => Ok(program),
        Err(fault) => Err(check_fault(fault)),
    }
}

fn lex_fault(fault: LexFault) -> OrMemory<ProgramFault>
    ensures { result ≡ lex_fault fault }
{
    match fault {
        LexFault::Bad { at, kind } => OrMemory::Fault(ProgramFault::LexFault { at, kind }),
        LexFault::OutOfMemory => OrMemory::NoMemory,
    }
}

fn syntax_fault(fault: SyntaxFault) -> OrMemory<ProgramFault>
    ensures { result ≡ syntax_fault fault }
{
    match fault {
        SyntaxFault::Bad { at, wanted } => OrMemory::Fault(ProgramFault::SyntaxFault {
            at,
            wanted,
        }),
        SyntaxFault::OutOfMemory => OrMemory::NoMemory,
    }
}

fn check_fault(fault: CheckFault) -> OrMemory<ProgramFault>
    ensures { result ≡ check_fault fault }
{
    match fault {
        CheckFault::TooManyComponents { count } => {
            OrMemory::Fault(ProgramFault::TooManyComponents { count })
        }
        CheckFault::UnknownName { at } => OrMemory::Fault(ProgramFault::UnknownName { at }),
        CheckFault::UnknownElement { at } => OrMemory::Fault(ProgramFault::UnknownElement { at }),
        CheckFault::UnknownAttribute { at } => {
            OrMemory::Fault(ProgramFault::UnknownAttribute { at })
        }
        CheckFault::TwiceDefined { at } => OrMemory::Fault(ProgramFault::TwiceDefined { at }),
        CheckFault::UsedBeforeDefined { at } => {
            OrMemory::Fault(ProgramFault::UsedBeforeDefined { at })
        }
        CheckFault::FallbackNotPlain { at } => {
            OrMemory::Fault(ProgramFault::FallbackNotPlain { at })
        }
        CheckFault::NoApp => OrMemory::Fault(ProgramFault::NoApp),
        CheckFault::TooDeep { depth } => OrMemory::Fault(ProgramFault::TooDeep { depth }),
        CheckFault::OutOfMemory => OrMemory::NoMemory,
    }
}
