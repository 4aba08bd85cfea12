//! The machine: the bytes of a page in pieces of any length, and the document that they leave.

ghost use Rattle.std.specs.Prelude.{◌≡◌, ◌<◌, ◌≤◌, ◌+◌, ◌++◌, ◌^◌, ℕ, List, [], IfErr, IfOk, IsErr, OnOk, length};
ghost use Rattle.html_read.specs.declared.token.Token.{Token};
ghost use Rattle.document_machine.specs.declared.fault.MachineFault.TheVariants.{OutOfMemory as Memory};
ghost use Rattle.document_machine.specs.declared.stop.Stop.TheVariants.{NoMemory};
ghost use Rattle.document_machine.specs.Documents.{Steps};
ghost use Rattle.document_machine.specs.MachineState.{AnswersAgain, FeedRefusal, FinishRefusal, HasRun, IsSound, Sees, SeesWhole, bytes_fed, nothing_run};
ghost use Rattle.document_machine.specs.Paths.{IsOpenDocument};
ghost use Rattle.document_machine.specs.Running.{ids_of, with_node};
ghost use Rattle.document_machine.specs.Shown.{view_of_parts};
ghost use Rattle.document_machine.specs.Views.{view_of};
ghost use Rattle.dom_forest.specs.declared.node.NewNode.TheVariants.{Text as TextNode};
ghost use Rattle.document_machine.specs.Taking.{IsEndCause, IsPieceCause, IsTakingCause, IsTextNow, RunsToEnd, Went};

use crate::building::Page;
use crate::fault::MachineFault;
use crate::stop::{Stop, again, stop_with};
use crate::view::View;
use crate::viewing::view_of;
use dom_forest::NewNode;
use fizz_text::{OutOfMemory, Text};
use html_read::{FinishFault, ReadFault, Reader, Token};
use std::alloc::Global;
use std::marker::Model;

/// Runs the bytes of a page, and tells which document they leave.
#[derive(Debug, Drop)]
pub struct Machine {
    alloc: Global,
    prefix: Text,
    reader: Reader,
    /// How many bytes were fed.
    length: usize,
    page: Page,
    stop: Stop,
}

impl Model for Machine {
    ghost use Rattle.document_machine.specs.MachineState.{MachineState};
    ghost use Rattle.document_machine.specs.Stored.{holding_code};

    ghost Value = { MachineState };

    ghost coded = { holding_code };

    ghost use Rattle.document_machine.specs.Ready.{IsReady};

    ghost view = { λ m. record { prefix = m.prefix; reader = m.reader; built = m.page; stop = m.stop } };

    ghost invariant = { λ m. IsReady m.reader m.length m.page m.stop };
}

impl Machine {
    /// A machine before the first byte of a page whose instructions name ids that begin with the prefix.
    pub fn new(alloc: Global, prefix: Text) -> Machine
        ensures held { result ≡ nothing_run prefix }
        ensures run { HasRun [] result }
    {
        Machine {
            alloc,
            prefix,
            reader: Reader::new(alloc),
            length: 0,
            page: Page::new(alloc),
            stop: Stop::GoesOn,
        }
    }

    /// Runs the next piece: each token is followed when its last byte comes, and a text when the next token begins.
    ///
    /// Refused with a fault exactly where the bytes so far have one; from then on each call answers the same. After
    /// want of memory each call wants memory.
    pub fn feed(&mut self, piece: &[u8]) -> Result<(), MachineFault>
        requires { bytes_fed self.old + length piece.now < 2 ^ 63 }
        ensures taken { OnOk result
            ((bytes : List ℕ) → HasRun bytes self.old → HasRun (bytes ++ piece.now) self.new) }
        ensures refused { IfErr result (FeedRefusal self.old piece.now self.new) }
        ensures again { AnswersAgain self.old.stop result }
        ensures counted { OnOk result (bytes_fed self.new ≡ bytes_fed self.old + length piece.now) }
        ensures bounded { bytes_fed self.new ≤ bytes_fed self.old + length piece.now }
        ensures prefix { self.new.prefix ≡ self.old.prefix }
    {
        again(self.alloc, &mut self.stop)?;
        let ran = run_piece(
            self.alloc,
            &self.prefix,
            &mut self.reader,
            &mut self.page,
            piece,
        );
        match ran {
            Ok(()) => {
                self.length += piece.len();
                Ok(())
            }
            Err(fault) => Err(stop_with(self.alloc, &mut self.stop, fault)),
        }
    }

    /// What is seen of the document so far. A text that has not ended counts as it stands, and any other token that
    /// has not ended does not count.
    pub fn view(&self) -> Result<View, OutOfMemory>
        requires { IsSound self.now.stop }
        ensures view { IfOk result
            (λ view. (bytes : List ℕ) → HasRun bytes self.now → Sees self.now bytes view) }
        ensures again { self.now.stop ≡ NoMemory → IsErr result }
    {
        if let Stop::NoMemory = self.stop {
            return Err(OutOfMemory);
        }
        match text_so_far(&self.reader)? {
            Some(text) => view_with(self.alloc, &self.prefix, &self.page, text),
            None => view_of(self.alloc, self.page.dom(), &self.prefix),
        }
    }

    /// Ends the page, and gives what is seen of its document.
    pub fn finish(self) -> Result<View, MachineFault>
        ensures whole { IfOk result
            (λ view. (bytes : List ℕ) → HasRun bytes self → SeesWhole self bytes view) }
        ensures refused { IfErr result
            (λ fault. (bytes : List ℕ) → HasRun bytes self → FinishRefusal self bytes fault) }
        ensures again { AnswersAgain self.stop result }
    {
        let Machine {
            alloc,
            prefix,
            reader,
            length,
            mut page,
            stop,
        } = self;
        match stop {
            Stop::GoesOn => {}
            Stop::Faulted(fault) => return Err(fault),
            Stop::NoMemory => return Err(MachineFault::OutOfMemory),
        }
        finish_page(alloc, &prefix, reader, &mut page)?;
        if page.is_open() {
            return Err(MachineFault::Html { at: length });
        }
        Ok(view_of(alloc, page.dom(), &prefix)?)
    }
}

/// The text that has not ended, if there is one.
fn text_so_far(reader: &Reader) -> Result<Option<Text>, OutOfMemory>
    ensures { IfOk result (IsTextNow reader.now) }
{
    match reader.open_text()? {
        Some(Token::Text { text, .. }) => Ok(Some(text)),
        _ => Ok(None),
    }
}

/// The view of a page with one text more.
fn view_with(alloc: Global, prefix: &Text, page: &Page, text: Text) -> Result<View, OutOfMemory>
    requires { IsOpenDocument (ids_of page.now.opened) page.now.dom }
    ensures { IfOk result
        (λ view. view_of_parts view.parts
        ≡ view_of prefix.now (with_node (TextNode text) page.now).dom.forest) }
{
    let mut dom = page.dom().copy()?;
    dom.append(page.innermost(), NewNode::Text(text))?;
    view_of(alloc, &dom, prefix)
}

/// Runs a piece of a page.
fn run_piece(
    alloc: Global,
    prefix: &Text,
    reader: &mut Reader,
    page: &mut Page,
    piece: &[u8],
) -> Result<(), MachineFault>
    requires room { reader.old.place + (length reader.old.rest + length piece.now) < 2 ^ 63 }
    requires document { IsOpenDocument (ids_of page.old.opened) page.old.dom }
    ensures taken { OnOk result
        ((bytes : List ℕ) → Went prefix.now bytes reader.old page.old →
        Went prefix.now (bytes ++ piece.now) reader.new page.new) }
    ensures refused { IfErr result (IsPieceCause prefix.now reader.old page.old piece.now) }
    ensures document { OnOk result (IsOpenDocument (ids_of page.new.opened) page.new.dom) }
    ensures counted { OnOk result
        (reader.new.place + length reader.new.rest
        ≡ reader.old.place + length reader.old.rest + length piece.now) }
    ensures bounded { reader.new.place + length reader.new.rest ≤ reader.old.place + length reader.old.rest + length piece.now }
{
    match reader.feed(piece) {
        Ok(tokens) => follow_all(alloc, prefix, page, tokens),
        Err(ReadFault::Bad { before, at, .. }) => {
            follow_all(alloc, prefix, page, before)?;
            Err(MachineFault::Html { at })
        }
        Err(ReadFault::OutOfMemory) => Err(MachineFault::OutOfMemory),
    }
}

/// Follows tokens in their order.
fn follow_all(
    alloc: Global,
    prefix: &Text,
    page: &mut Page,
    tokens: Vec<Token>,
) -> Result<(), MachineFault>
    requires { IsOpenDocument (ids_of page.old.opened) page.old.dom }
    ensures steps { OnOk result (Steps prefix.now page.old tokens.items page.new) }
    ensures refused { IfErr result (IsTakingCause prefix.now page.old tokens.items) }
    ensures document { OnOk result (IsOpenDocument (ids_of page.new.opened) page.new.dom) }
{
    for token in tokens {
        page.take(alloc, prefix, token)?;
    }
    Ok(())
}

/// Ends the stream of a page, and follows the text that it ends in.
fn finish_page(
    alloc: Global,
    prefix: &Text,
    reader: Reader,
    page: &mut Page,
) -> Result<(), MachineFault>
    requires { IsOpenDocument (ids_of page.old.opened) page.old.dom }
    ensures ended { OnOk result
        ((bytes : List ℕ) → Went prefix.now bytes reader page.old →
        RunsToEnd prefix.now bytes page.new) }
    ensures refused { IfErr result
        (λ fault. (bytes : List ℕ) → Went prefix.now bytes reader page.old →
        IsEndCause prefix.now bytes fault) }
{
    match reader.finish() {
        Ok(Some(token)) => page.take(alloc, prefix, token),
        Ok(None) => Ok(()),
        Err(FinishFault::Bad { at, .. }) => Err(MachineFault::Html { at }),
        Err(FinishFault::Unfinished { at }) => Err(MachineFault::Html { at }),
        Err(FinishFault::OutOfMemory) => Err(MachineFault::OutOfMemory),
    }
}
