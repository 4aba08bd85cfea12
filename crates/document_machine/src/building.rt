//! A page that is being built.

ghost use Rattle.std.specs.Prelude.{◌≡◌, ◌<◌, ◌∷◌, ℕ, IfErr, IfOk, List, OnOk, length, nat_lt, reverse};
ghost use Rattle.dom_forest.specs.Edits.{DomState, with_appended};
ghost use Rattle.dom_forest.specs.declared.node.NewNode.TheVariants.{Element};
ghost use Rattle.fizz_instructions.specs.Bodies.{function_of};
ghost use Rattle.fizz_instructions.specs.Reading.{Says};
ghost use Rattle.fizz_instructions.specs.Sending.{with_function};
ghost use Rattle.document_machine.specs.Documents.{Step, most_open};
ghost use Rattle.document_machine.specs.MachineState.{IsStepCause};
ghost use Rattle.document_machine.specs.Paths.{IsOpenDocument};
ghost use Rattle.document_machine.specs.Running.{at_first, ids_of, innermost, mark_of, with_node};
ghost use Rattle.document_machine.specs.Taking.{Closes, Follows, IsCloseRefusal, IsOpenRefusal, IsScriptRefusal, is_innermost};
ghost use Rattle.document_machine.specs.declared.fault.MachineFault.TheVariants.{OutOfMemory as Memory};

use crate::edits::{EditFault, act};
use crate::fault::MachineFault;
use dom_forest::{Dom, Mark, NewNode, NodeId};
use fizz_instructions::{BodyFault, Instruction, SentFunctions, read_script_body};
use fizz_text::{Attributes, OutOfMemory, Text};
use html_read::{Body, CommentKind, Token};
use std::alloc::Global;
use std::marker::Model;

/// The most elements that may be open.
const MOST_OPEN: usize = 512;

/// An element that is open: its end tag has not come.
#[derive(Debug, Drop)]
pub(crate) struct OpenElement {
    pub(crate) id: NodeId,
    pub(crate) name: Text,
}

/// A page that is being built: its document, the open elements, and the functions that its scripts defined.
#[derive(Debug, Drop)]
pub(crate) struct Page {
    dom: Dom,
    /// The innermost last.
    opened: Vec<OpenElement>,
    known: SentFunctions,
}

impl Model for Page {
    ghost use Rattle.std.specs.Prelude.{reverse};
    ghost use Rattle.document_machine.specs.Running.{PageState};
    ghost use Rattle.document_machine.specs.Stored.{building_code};

    ghost Value = { PageState };

    ghost coded = { building_code };

    ghost view = { λ p. record { dom = p.dom; opened = reverse p.opened.items; known = p.known } };
}

impl Page {
    /// A page before its first token.
    pub(crate) fn new(alloc: Global) -> Page
        ensures first { result ≡ at_first }
        ensures document { IsOpenDocument (ids_of result.opened) result.dom }
    {
        Page {
            dom: Dom::new(alloc),
            opened: Vec::new(alloc),
            known: SentFunctions::none(),
        }
    }

    pub(crate) fn dom(&self) -> &Dom
        ensures { result.now ≡ self.now.dom }
    {
        &self.dom
    }

    /// Whether an element is open.
    pub(crate) fn is_open(&self) -> bool
        ensures { result ≡ nat_lt 0 (length self.now.opened) }
    {
        !self.opened.is_empty()
    }

    /// The innermost open element.
    pub(crate) fn innermost(&self) -> Option<NodeId>
        ensures { result ≡ innermost self.now.opened }
    {
        innermost(&self.opened)
    }

    /// Adds a node at the end of the innermost open element.
    fn add(&mut self, node: NewNode) -> Result<(), MachineFault>
        requires { IsOpenDocument (ids_of self.old.opened) self.old.dom }
        ensures added { OnOk result (self.new ≡ with_node node self.old) }
        ensures refused { IfErr result (λ e. e ≡ Memory) }
        ensures document { OnOk result (IsOpenDocument (ids_of self.new.opened) self.new.dom) }
    {
        add(&mut self.dom, &self.opened, node)
    }

    /// Follows a token.
    pub(crate) fn take(
        &mut self,
        alloc: Global,
        prefix: &Text,
        token: Token,
    ) -> Result<(), MachineFault>
        requires { IsOpenDocument (ids_of self.old.opened) self.old.dom }
        ensures step { OnOk result (Step prefix.now self.old token self.new) }
        ensures refused { IfErr result (IsStepCause prefix.now self.old token) }
        ensures document { OnOk result (IsOpenDocument (ids_of self.new.opened) self.new.dom) }
    {
        match token {
            Token::Start {
                name,
                attributes,
                from,
            } => open(
                alloc,
                &mut self.dom,
                &mut self.opened,
                name,
                attributes,
                from,
            ),
            Token::End { name, from } => close(&mut self.opened, name, from),
            Token::Void {
                name,
                attributes,
                ..
            } => self.add(NewNode::Element { name, attributes }),
            Token::Text { text, .. } => self.add(NewNode::Text(text)),
            Token::Comment { which, .. } => self.add(NewNode::Comment(mark_of(which))),
            Token::Script { body, from } => {
                run(
                    alloc,
                    &mut self.dom,
                    &self.opened,
                    &mut self.known,
                    prefix,
                    body,
                    from,
                )
            }
        }
    }
}

fn innermost(opened: &[OpenElement]) -> Option<NodeId>
    ensures { result ≡ innermost (reverse opened.now) }
{
    match opened.last() {
        Some(element) => Some(element.id),
        None => None,
    }
}

fn mark_of(which: CommentKind) -> Mark
    ensures { result ≡ mark_of which }
{
    match which {
        CommentKind::Complete => Mark::Complete,
        CommentKind::Pending => Mark::Pending,
        CommentKind::Client => Mark::Client,
        CommentKind::End => Mark::End,
        CommentKind::Space => Mark::Space,
    }
}

/// Adds a node at the end of the innermost open element.
fn add(dom: &mut Dom, opened: &[OpenElement], node: NewNode) -> Result<(), MachineFault>
    requires { IsOpenDocument (ids_of (reverse opened.now)) dom.old }
    ensures ok { OnOk result
        (dom.new ≡ with_appended (innermost (reverse opened.now)) node dom.old) }
    ensures refused { IfErr result (λ e. e ≡ Memory) }
    ensures document { OnOk result (IsOpenDocument (ids_of (reverse opened.now)) dom.new) }
{
    dom.append(innermost(opened), node)?;
    Ok(())
}

/// Adds an element that is open from now on.
fn open(
    alloc: Global,
    dom: &mut Dom,
    opened: &mut Vec<OpenElement>,
    name: Text,
    attributes: Attributes,
    from: usize,
) -> Result<(), MachineFault>
    requires { IsOpenDocument (ids_of (reverse opened.old.items)) dom.old }
    ensures room { OnOk result (length (reverse opened.old.items) < most_open) }
    ensures dom { OnOk result
        (dom.new
        ≡ with_appended (innermost (reverse opened.old.items)) (Element name attributes) dom.old) }
    ensures opened { OnOk result
        (reverse opened.new.items
        ≡ record { id = record { 0 = dom.old.next }; name = name } ∷ reverse opened.old.items) }
    ensures refused { IfErr result (IsOpenRefusal (reverse opened.old.items) from) }
    ensures document { OnOk result (IsOpenDocument (ids_of (reverse opened.new.items)) dom.new) }
{
    if !has_room(opened) {
        return Err(MachineFault::Html { at: from });
    }
    let node = NewNode::Element {
        name: name.copy(alloc)?,
        attributes,
    };
    let id = dom.append(innermost(opened), node)?;
    opened.push(OpenElement { id, name })?;
    Ok(())
}

/// Whether one more element may be open.
fn has_room(opened: &[OpenElement]) -> bool
    ensures { result ≡ nat_lt (length (reverse opened.now)) most_open }
{
    opened.len() < MOST_OPEN
}

/// Closes the innermost open element, if it has the name.
fn close(opened: &mut Vec<OpenElement>, name: Text, from: usize) -> Result<(), MachineFault>
    ensures ok { OnOk result (Closes name (reverse opened.old.items) (reverse opened.new.items)) }
    ensures refused { IfErr result (IsCloseRefusal name (reverse opened.old.items) from) }
{
    if !is_innermost(opened, &name) {
        return Err(MachineFault::Html { at: from });
    }
    opened.pop();
    Ok(())
}

fn is_innermost(opened: &[OpenElement], name: &Text) -> bool
    ensures { result ≡ is_innermost name.now (reverse opened.now) }
{
    match opened.last() {
        Some(inner) => inner.name.as_bytes() == name.as_bytes(),
        None => false,
    }
}

/// Follows a script.
fn run(
    alloc: Global,
    dom: &mut Dom,
    opened: &[OpenElement],
    known: &mut SentFunctions,
    prefix: &Text,
    body: Body,
    from: usize,
) -> Result<(), MachineFault>
    requires { IsOpenDocument (ids_of (reverse opened.now)) dom.old }
    ensures ok { OnOk result
        (Follows prefix.now body
        (ids_of (reverse opened.now)) dom.old known.old dom.new known.new) }
    ensures refused { IfErr result
        (IsScriptRefusal prefix.now body (ids_of (reverse opened.now)) dom.old known.old from) }
    ensures document { OnOk result (IsOpenDocument (ids_of (reverse opened.now)) dom.new) }
{
    let instruction = read(alloc, body.as_bytes(), prefix, known, from)?;
    match act(alloc, dom, prefix, opened, &instruction) {
        Ok(()) => Ok(()),
        Err(EditFault::NoSuchId { id }) => Err(MachineFault::NoSuchId { at: from, id }),
        Err(EditFault::NotBoundary) => Err(MachineFault::NotBoundary { at: from }),
        Err(EditFault::OutOfMemory) => Err(MachineFault::OutOfMemory),
    }
}

/// The instruction that a script's body says.
fn read(
    alloc: Global,
    body: &[u8],
    prefix: &Text,
    known: &mut SentFunctions,
    from: usize,
) -> Result<Instruction, MachineFault>
    ensures said { IfOk result (λ i. Says prefix.now body.now known.old i) }
    ensures learned { IfOk result (λ i. known.new ≡ with_function known.old (function_of i)) }
    ensures refused { (opened : List ℕ) (dom : DomState) →
        IfErr result (IsScriptRefusal prefix.now body.now opened dom known.old from) }
{
    match read_script_body(alloc, body, prefix, known) {
        Ok(instruction) => Ok(instruction),
        Err(BodyFault::BadInstruction) => Err(MachineFault::Html { at: from }),
        Err(BodyFault::UnknownFunction) => Err(MachineFault::UnknownFunction { at: from }),
        Err(BodyFault::OutOfMemory) => Err(MachineFault::OutOfMemory),
    }
}
