//! What the three instructions do to a document.

ghost use Rattle.std.specs.Prelude.{◌≡◌, ◌==◌, nat_lt, not, ℕ, IfErr, IfOk, IfSome, IsTrue, OnOk, Ok, Some, reverse};
ghost use Rattle.std.specs.List.{list_any};
ghost use Rattle.dom_forest.specs.Edits.{IsNumbered, DomState, inner_of, part_of, with_before, without_node};
ghost use Rattle.dom_forest.specs.Forest.{IsComment, IsElement, IsThere, content_of, first_tree, from, later_of, times};
ghost use Rattle.dom_forest.specs.Ids.{element_with};
ghost use Rattle.dom_forest.specs.Seen.{number as number_of};
ghost use Rattle.fizz_instructions.specs.Bodies.{id_of};
ghost use Rattle.document_machine.specs.Edits.{IsEditCause, client_render, client_render_from, closed_with, complete_boundary, fill_placeholder, from_sibling, marker_of, reveal, unless_open, waiting, with_children_before, with_digest_unless_empty, without_range};
ghost use Rattle.document_machine.specs.EditFailures.{IsNotFound};
ghost use Rattle.document_machine.specs.Paths.{IsOpenDocument};
ghost use Rattle.document_machine.specs.Running.{edit_of, ids_of};

use crate::building::OpenElement;
use dom_forest::{Dom, DomNode, InsertRefused, Mark, NodeId};
use fizz_instructions::Instruction;
use fizz_text::{OutOfMemory, Text, hex_of};
use std::alloc::Global;

/// What an instruction misses.
#[derive(Debug, Drop)]
pub(crate) enum EditFault {
    /// No element that is closed has the id.
    NoSuchId { id: Text },
    /// The template belongs to no boundary that waits for its content.
    NotBoundary,
    OutOfMemory,
}

impl From<OutOfMemory> for EditFault {
    ghost use Rattle.document_machine.specs.declared.edits.EditFault.TheVariants.{OutOfMemory as Memory};

    ghost from_gives = { λ _ e. e ≡ Memory };

    fn from(_error: OutOfMemory) -> EditFault {
        EditFault::OutOfMemory
    }
}

/// What an instruction makes of a document in which these elements are open, the innermost last.
pub(crate) fn act(
    alloc: Global,
    dom: &mut Dom,
    prefix: &Text,
    opened: &[OpenElement],
    instruction: &Instruction,
) -> Result<(), EditFault>
    requires { IsOpenDocument (ids_of (reverse opened.now)) dom.old }
    ensures ok { OnOk result
        (edit_of prefix.now (ids_of (reverse opened.now)) instruction.now dom.old ≡ Ok dom.new) }
    ensures refused { IfErr result
        (IsEditCause (edit_of prefix.now (ids_of (reverse opened.now)) instruction.now dom.old)) }
    ensures document { OnOk result (IsOpenDocument (ids_of (reverse opened.now)) dom.new) }
{
    match instruction {
        Instruction::Complete { boundary, segment } => {
            complete(alloc, dom, prefix, opened, *boundary, *segment)
        }
        Instruction::Segment { segment } => fill(alloc, dom, prefix, opened, *segment),
        Instruction::ClientRender { boundary, digest } => {
            leave_to_client(alloc, dom, prefix, *boundary, digest)
        }
    }
}

/// `$RC`: the container's children become the content of the boundary.
fn complete(
    alloc: Global,
    dom: &mut Dom,
    prefix: &Text,
    opened: &[OpenElement],
    boundary: u32,
    segment: u32,
) -> Result<(), EditFault>
    requires { IsNumbered dom.old }
    ensures ok { OnOk result
        (complete_boundary prefix.now (ids_of (reverse opened.now)) boundary segment dom.old
        ≡ Ok dom.new) }
    ensures refused { IfErr result
        (IsEditCause
        (complete_boundary prefix.now (ids_of (reverse opened.now)) boundary segment dom.old)) }
{
    let container = find_closed(alloc, dom, prefix, opened, "S:", segment)?;
    let children = take_children(dom, container)?;
    match find_element(alloc, dom, prefix, "B:", boundary)? {
        Some(template) => show(dom, template, children),
        None => Ok(()),
    }
}

/// Puts what were the children of a container into the boundary of a template, in place of what stands there.
fn show(dom: &mut Dom, template: NodeId, children: Dom) -> Result<(), EditFault>
    requires { IsNumbered dom.old }
    ensures ok { OnOk result
        ((container : ℕ) (old : DomState) → children ≡ inner_of (part_of container old)
        → reveal container old dom.old (Some template.0) ≡ Ok dom.new) }
    ensures refused { IfErr result
        (λ e. (container : ℕ) (old : DomState) →
        IsEditCause (reveal container old dom.old (Some template.0)) e) }
{
    let Some(marker) = find_marker(dom, template) else {
        return Err(EditFault::NotBoundary);
    };
    let Some(end) = dom.end_of_boundary(template) else {
        return Err(EditFault::NotBoundary);
    };
    dom.set_mark(marker, Mark::Complete);
    remove_range(dom, template, end)?;
    let put = put_before(dom, end, children)?;
    prove!(put);
    Ok(())
}

/// `$RS`: the container's children come into the place of the placeholder.
fn fill(
    alloc: Global,
    dom: &mut Dom,
    prefix: &Text,
    opened: &[OpenElement],
    segment: u32,
) -> Result<(), EditFault>
    requires { IsNumbered dom.old }
    ensures ok { OnOk result
        (fill_placeholder prefix.now (ids_of (reverse opened.now)) segment dom.old ≡ Ok dom.new) }
    ensures refused { IfErr result
        (IsEditCause (fill_placeholder prefix.now (ids_of (reverse opened.now)) segment dom.old)) }
{
    let container = find_closed(alloc, dom, prefix, opened, "S:", segment)?;
    let placeholder = find_closed(alloc, dom, prefix, opened, "P:", segment)?;
    if move_children(dom, container, placeholder)? {
        Ok(())
    } else {
        let id = id_text(alloc, prefix, "P:", segment)?;
        Err(EditFault::NoSuchId { id })
    }
}

/// Takes a container out, and puts its children into the place of a placeholder, unless that was inside the container.
fn move_children(dom: &mut Dom, container: NodeId, placeholder: NodeId) -> Result<bool, OutOfMemory>
    requires numbered { IsNumbered dom.old }
    requires element { IsElement (content_of container.0 dom.old.forest) }
    requires there { IsThere placeholder.0 dom.old.forest }
    ensures inside { IfOk result
        (λ moved. nat_lt 0 (times placeholder.0 (first_tree (from container.0 dom.old.forest)))
        ≡ not moved) }
    ensures ok { IfOk result (λ moved. IsTrue moved → dom.new
        ≡ without_node placeholder.0
        (with_children_before placeholder.0 container.0 dom.old
        (without_node container.0 dom.old))) }
{
    let children = take_children(dom, container)?;
    if !put_before(dom, placeholder, children)? {
        return Ok(false);
    }
    dom.remove(placeholder)?;
    Ok(true)
}

/// `$RX`: the boundary is left to the client.
fn leave_to_client(
    alloc: Global,
    dom: &mut Dom,
    prefix: &Text,
    boundary: u32,
    digest: &Text,
) -> Result<(), EditFault>
    requires { IsNumbered dom.old }
    ensures ok { OnOk result (client_render prefix.now boundary digest.now dom.old ≡ Ok dom.new) }
    ensures refused { IfErr result
        (IsEditCause (client_render prefix.now boundary digest.now dom.old)) }
{
    match find_element(alloc, dom, prefix, "B:", boundary)? {
        Some(template) => give_up(alloc, dom, template, digest),
        None => Ok(()),
    }
}

/// Leaves the boundary of a template to the client.
fn give_up(alloc: Global, dom: &mut Dom, template: NodeId, digest: &Text) -> Result<(), EditFault>
    requires { IsElement (content_of template.0 dom.old.forest) }
    ensures ok { OnOk result
        (client_render_from digest.now dom.old (Some template.0) ≡ Ok dom.new) }
    ensures refused { IfErr result
        (IsEditCause (client_render_from digest.now dom.old (Some template.0))) }
{
    let Some(marker) = find_marker(dom, template) else {
        return Err(EditFault::NotBoundary);
    };
    dom.set_mark(marker, Mark::Client);
    set_digest(alloc, dom, template, digest)?;
    Ok(())
}

/// Gives an element a digest that is not empty.
fn set_digest(
    alloc: Global,
    dom: &mut Dom,
    template: NodeId,
    digest: &Text,
) -> Result<(), OutOfMemory>
    requires { IsElement (content_of template.0 dom.old.forest) }
    ensures { OnOk result (dom.new ≡ with_digest_unless_empty template.0 digest.now dom.old) }
{
    if digest.as_bytes().is_empty() {
        return Ok(());
    }
    dom.set_digest(template, digest.copy(alloc)?)
}

/// The first element with an id of the page, unless it is open.
fn find_closed(
    alloc: Global,
    dom: &Dom,
    prefix: &Text,
    opened: &[OpenElement],
    mark: &str,
    number: u32,
) -> Result<NodeId, EditFault>
    requires { IsNumbered dom.now }
    ensures found { IfOk result
        (λ node. closed_with (ids_of (reverse opened.now))
        (id_of prefix.now mark.now number) dom.now.forest ≡ Some node.0) }
    ensures element { IfOk result (λ node. IsElement (content_of node.0 dom.now.forest)) }
    ensures refused { IfErr result (IsNotFound (id_of prefix.now mark.now number)
        (closed_with (ids_of (reverse opened.now)) (id_of prefix.now mark.now number) dom.now.forest)) }
{
    let id = id_text(alloc, prefix, mark, number)?;
    match closed_element(dom, opened, &id) {
        Some(node) => Ok(node),
        None => Err(EditFault::NoSuchId { id }),
    }
}

/// The first element with an id of the page.
fn find_element(
    alloc: Global,
    dom: &Dom,
    prefix: &Text,
    mark: &str,
    number: u32,
) -> Result<Option<NodeId>, OutOfMemory>
    requires { IsNumbered dom.now }
    ensures found { IfOk result
        (λ node. number_of node ≡ element_with (id_of prefix.now mark.now number) dom.now.forest) }
    ensures element { IfOk result
        (λ node. IfSome node (λ n. IsElement (content_of n.0 dom.now.forest))) }
{
    let id = id_text(alloc, prefix, mark, number)?;
    Ok(dom.find_id(id.as_bytes()))
}

/// An id of the page.
fn id_text(alloc: Global, prefix: &Text, mark: &str, number: u32) -> Result<Text, OutOfMemory>
    ensures { IfOk result (λ t. t ≡ id_of prefix.now mark.now number) }
{
    let mut id = Vec::from_slice(alloc, prefix.as_bytes())?;
    id.extend_from_slice(mark.as_bytes())?;
    id.extend_from_slice(hex_of(number).as_bytes())?;
    match Text::from_bytes(id) {
        Ok(text) => Ok(text),
        Err(_) => unreachable!(),
    }
}

fn closed_element(dom: &Dom, opened: &[OpenElement], id: &Text) -> Option<NodeId>
    ensures { number_of result ≡ closed_with (ids_of (reverse opened.now)) id.now dom.now.forest }
{
    match dom.find_id(id.as_bytes()) {
        Some(node) => unless_open(opened, node),
        None => None,
    }
}

fn unless_open(opened: &[OpenElement], node: NodeId) -> Option<NodeId>
    ensures { number_of result ≡ unless_open (ids_of (reverse opened.now)) (Some node.0) }
{
    if is_open(opened, node) {
        None
    } else {
        Some(node)
    }
}

fn is_open(opened: &[OpenElement], node: NodeId) -> bool
    ensures { result ≡ list_any (λ o. o.id.0 == node.0) opened.now }
{
    opened.iter().any(|element| element.id.0 == node.0)
}

/// Takes an element out of the document, and gives its children.
fn take_children(dom: &mut Dom, element: NodeId) -> Result<Dom, OutOfMemory>
    requires { IsElement (content_of element.0 dom.old.forest) }
    ensures rest { OnOk result (dom.new ≡ without_node element.0 dom.old) }
    ensures children { IfOk result (λ children. children ≡ inner_of (part_of element.0 dom.old)) }
{
    let Some(part) = dom.remove(element)? else {
        unreachable!()
    };
    part.inner()
}

/// The comment before a template, if it begins a boundary that waits for its content.
fn find_marker(dom: &Dom, template: NodeId) -> Option<NodeId>
    ensures value { number_of result ≡ marker_of template.0 dom.now.forest }
    ensures comment { IfSome result (λ m. IsComment (content_of m.0 dom.now.forest)) }
{
    match dom.previous(template) {
        Some(node) => unless_settled(dom, node),
        None => None,
    }
}

fn unless_settled(dom: &Dom, node: NodeId) -> Option<NodeId>
    ensures value { number_of result ≡ waiting dom.now.forest (Some node.0) }
    ensures comment { IfSome result (λ m. IsComment (content_of m.0 dom.now.forest)) }
{
    match dom.look(node) {
        Some(DomNode::Comment(Mark::Pending | Mark::Client)) => Some(node),
        _ => None,
    }
}

/// Removes the siblings from one node up to a later one, which stays.
fn remove_range(dom: &mut Dom, first: NodeId, end: NodeId) -> Result<(), OutOfMemory>
    requires numbered { IsNumbered dom.old }
    requires later { IsThere end.0 (from_sibling end.0 (later_of first.0 dom.old.forest)) }
    ensures ok { OnOk result (dom.new ≡ without_range first.0 end.0 dom.old) }
    ensures there { OnOk result (IsThere end.0 dom.new.forest) }
{
    let mut node = first;
    while node.0 != end.0 {
        let Some(next) = dom.next(node) else {
            unreachable!()
        };
        dom.remove(node)?;
        node = next;
    }
    Ok(())
}

/// Puts nodes before another one, unless that is not there.
fn put_before(dom: &mut Dom, place: NodeId, part: Dom) -> Result<bool, OutOfMemory>
    ensures there { IfOk result (λ there. there ≡ nat_lt 0 (times place.0 dom.old.forest)) }
    ensures ok { IfOk result (λ there. IsTrue there → dom.new ≡ with_before place.0 part dom.old) }
{
    match dom.insert_before(place, part) {
        Ok(()) => Ok(true),
        Err(InsertRefused::NoPlace { .. }) => Ok(false),
        Err(InsertRefused::OutOfMemory { .. }) => Err(OutOfMemory),
    }
}

#[cfg(test)]
mod tests;
