//! A page file's settled document, as it is printed.

ghost use Rattle.std.specs.Prelude.{◌≡◌, ◌<◌, ◌+◌, ◌^◌, ℕ, List, [], Some, IfErr, OnOk, length};
ghost use Rattle.dom_forest.specs.Documents.{nodes_in};
ghost use Rattle.document_machine.specs.MachineState.{HasRun, SeesWhole, bytes_fed, nothing_run};
ghost use Rattle.document_machine.specs.Settled.{settled_of};
ghost use Rattle.document_machine.specs.Shown.{view_of_parts};
ghost use Rattle.fizz_cli.specs.Feeding.{IsFedCause, IsPendingView, fault_of};
ghost use Rattle.fizz_cli.specs.PageFiles.{RefusesPage, RefusesPageBytes, ShowsDocument, ShowsFile};
ghost use Rattle.fizz_cli.specs.Reports.{files_change};
ghost use Rattle.fizz_cli.specs.Steps.{AcceptsOrRefuses, ReadsFiles};
ghost use Rattle.fizz_cli.specs.declared.refusal.PageFault.{PageFault as Cause};
ghost use Rattle.fizz_cli.specs.declared.stop.OrMemory.{OrMemory as Reader};

use super::read_file::read_file;
use crate::refusal::{FileFault, PageFault, Refusal};
use crate::stop::{OrMemory, refused};
use document_machine::{Machine, MachineFault, SettledRefused, View};
use dom_forest::{Doc, print_doc};
use fizz_outside::Files;
use fizz_text::Text;
use std::alloc::Global;

/// The most bytes that a page file may have.
const MOST_BYTES: usize = 268_435_456;

/// How many bytes go to the machine at once.
const PIECE: usize = 65_536;

/// The settled document of a page file, as it is printed.
pub(crate) fn read_page<F: Files>(
    alloc: Global,
    files: &mut F,
    name: &Text,
    prefix: &Text,
) -> Result<Vec<u8>, OrMemory<Refusal>>
    ensures { ReadsFiles (λ at out. ShowsFile prefix.now (at name.now) out.items)
        (λ at faulted. RefusesPage prefix.now faulted name.now (at name.now))
        (files_change (F.files files.old) (F.faults files.old) (F.files files.new) (F.faults files.new)) result }
{
    let bytes = read_file(alloc, files, name, MOST_BYTES)?;
    match show(alloc, prefix, &bytes) {
        Ok(out) => Ok(out),
        Err(OrMemory::Fault(fault)) => Err(refused(alloc, name, FileFault::Page(fault))),
        Err(OrMemory::NoMemory) => Err(OrMemory::NoMemory),
    }
}

/// The settled document of a page's bytes, as it is printed.
fn show(alloc: Global, prefix: &Text, bytes: &[u8]) -> Result<Vec<u8>, OrMemory<PageFault>>
    ensures { AcceptsOrRefuses (λ out. ShowsDocument prefix.now bytes.now out.items) (RefusesPageBytes prefix.now bytes.now) result }
{
    let view = run_page(alloc, prefix, bytes)?;
    let doc = settled_doc(alloc, &view)?;
    Ok(print_doc(alloc, &doc)?)
}

/// Runs a page to its end.
pub(crate) fn run_page(
    alloc: Global,
    prefix: &Text,
    bytes: &[u8],
) -> Result<View, OrMemory<PageFault>>
    ensures { AcceptsOrRefuses (SeesWhole (nothing_run prefix.now) bytes.now) (RefusesPageBytes prefix.now bytes.now) result }
{
    let mut machine = Machine::new(alloc, prefix.copy(alloc)?);
    if let Err(fault) = feed_all(&mut machine, bytes) {
        return Err(fault_of(fault));
    }
    match machine.finish() {
        Ok(view) => Ok(view),
        Err(fault) => Err(fault_of(fault)),
    }
}

/// Feeds bytes piece by piece.
fn feed_all(machine: &mut Machine, bytes: &[u8]) -> Result<(), MachineFault>
    requires { bytes_fed machine.old + length bytes.now < 2 ^ 63 }
    ensures prefix { machine.new.prefix ≡ machine.old.prefix }
    ensures taken { OnOk result (HasRun [] machine.old → HasRun bytes.now machine.new) }
    ensures refused { IfErr result (λ fault. HasRun [] machine.old → IsFedCause machine.old.prefix bytes.now fault) }
{
    let mut rest = bytes;
    'pieces: while !rest.is_empty() {
        let (piece, more) = rest.split_at(rest.len().min(PIECE));
        machine.feed(piece)?;
        rest = more;
    }
    Ok(())
}

/// The settled document of a view.
pub(crate) fn settled_doc(alloc: Global, view: &View) -> Result<Doc, OrMemory<PageFault>>
    ensures { AcceptsOrRefuses (λ doc. settled_of (view_of_parts view.now.parts) ≡ Some (nodes_in doc.parts))
        (IsPendingView (view_of_parts view.now.parts)) result }
{
    match view.settled(alloc) {
        Ok(doc) => Ok(doc),
        Err(SettledRefused::StillPending { count }) => Err(still_pending(count)),
        Err(SettledRefused::OutOfMemory) => Err(OrMemory::NoMemory),
    }
}

fn still_pending(count: u64) -> OrMemory<PageFault>
    ensures { result ≡ Reader.Fault (Cause.StillPending count) }
{
    OrMemory::Fault(PageFault::StillPending { count })
}

/// What the machine's fault refuses the page for.
fn fault_of(fault: MachineFault) -> OrMemory<PageFault>
    ensures { result ≡ fault_of fault }
{
    match fault {
        MachineFault::Html { at } => OrMemory::Fault(PageFault::Html { at }),
        MachineFault::UnknownFunction { at } => OrMemory::Fault(PageFault::UnknownFunction { at }),
        MachineFault::NoSuchId { at, id } => OrMemory::Fault(PageFault::NoSuchId { at, id }),
        MachineFault::NotBoundary { at } => OrMemory::Fault(PageFault::NotBoundary { at }),
        MachineFault::OutOfMemory => OrMemory::NoMemory,
    }
}
