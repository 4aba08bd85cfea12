//! The view of a document, made by a walk over its nodes.

ghost use Rattle.std.specs.Prelude.{◌≡◌, ◌<◌, ◌≤◌, ◌+◌, [], IfOk, OnOk, Some, false, ℕ, List};
ghost use Rattle.dom_forest.specs.Edits.{IsNumbered};
ghost use Rattle.dom_forest.specs.Forest.{Forest, kids_of, later_of};
ghost use Rattle.document_machine.specs.declared.view.ViewPart.TheVariants as part;
ghost use Rattle.document_machine.specs.declared.viewing.Frame.{Frame};
ghost use Rattle.document_machine.specs.declared.viewing.Frame.TheVariants.{Element, Boundary};
ghost use Rattle.document_machine.specs.Shown.{view_of_parts};
ghost use Rattle.document_machine.specs.Views.{Levels, digest_after, levels_at_end, levels_at_mark, levels_at_boundary, view_of};
ghost use Rattle.document_machine.specs.Viewing.{all_parts, all_parts_from, frame_turns, frames_turns, nodes_from, no_levels, turns, walk_inside, with_frame};

use crate::left_out::{digest_in, is_left_out, is_template};
use crate::status::BoundaryStatus;
use crate::view::{View, ViewPart};
use dom_forest::{Dom, DomNode, Mark, NodeId, laws_of_walks};
use fizz_text::{Attr, Attributes, OutOfMemory, Text};
use sqlite_items::Items;
use std::alloc::Global;

/// What was begun and is not closed.
#[derive(Clone, Copy, Drop)]
enum Frame {
    Element {
        /// Whether it stands at the top of the document.
        at_top: bool,
        /// Its next sibling.
        later: Option<NodeId>,
    },
    Boundary,
}

/// How far a walk over a document has come.
#[derive(Drop)]
struct Walk {
    parts: Items<ViewPart>,
    /// The innermost is the last one.
    frames: Items<Frame>,
    /// Whether no frame is an element.
    at_top: bool,
}

/// The view of a document: its elements and texts, with the boundaries that their markers enclose. A boundary takes
/// what stands up to its `/$`, or to the end of its siblings where none follows; a `/$` that ends no boundary is left
/// out, as are templates, the space comments, and at the top the hidden containers of segments. What is begun is kept
/// in a list, so a deep document takes memory and no stack.
pub(crate) fn view_of(alloc: Global, dom: &Dom, prefix: &Text) -> Result<View, OutOfMemory>
    ensures { IfOk result (λ view. view_of_parts view.parts ≡ view_of prefix.now dom.now.forest) }
{
    let mut walk = Walk {
        parts: Items::new(alloc),
        frames: Items::new(alloc),
        at_top: true,
    };
    let mut here = first_node(dom);
    'nodes: loop {
        match here {
            Some(node) => here = pass(alloc, dom, prefix.as_bytes(), &mut walk, node)?,
            None => match walk.frames.pop() {
                Some(frame) => here = close(&mut walk, frame)?,
                None => return Ok(View { parts: walk.parts }),
            },
        }
    }
}

fn first_node(dom: &Dom) -> Option<NodeId>
    ensures { nodes_from result dom.now.forest ≡ dom.now.forest }
{
    dom.first(None)
}

/// Goes past a node, or into it, and says which node is next.
fn pass(
    alloc: Global,
    dom: &Dom,
    prefix: &[u8],
    walk: &mut Walk,
    node: NodeId,
) -> Result<Option<NodeId>, OutOfMemory>
    ensures view { IfOk result (λ next. all_parts_from prefix.now dom.now.forest walk.new next
        ≡ all_parts_from prefix.now dom.now.forest walk.old (Some node)) }
    ensures less { IfOk result
        (λ next. turns dom.now.forest walk.new next < turns dom.now.forest walk.old (Some node)) }
{
    let Some(content) = dom.look(node) else {
        return Ok(None);
    };
    let later = next_node(dom, node);
    match content {
        DomNode::Element { name, attributes } => {
            if is_left_out(prefix, walk.at_top, name.as_bytes(), attributes) {
                return Ok(later);
            }
            open_element(alloc, walk, name, attributes, later)?;
            Ok(first_child(dom, node))
        }
        DomNode::Text(text) => {
            walk.parts.push(ViewPart::Text(text.copy(alloc)?))?;
            Ok(later)
        }
        DomNode::Comment(mark) => {
            pass_mark(alloc, dom, walk, mark, later)?;
            Ok(later)
        }
    }
}

fn next_node(dom: &Dom, node: NodeId) -> Option<NodeId>
    requires { IsNumbered dom.now }
    ensures { nodes_from result dom.now.forest ≡ later_of node.0 dom.now.forest }
{
    laws_of_walks();
    dom.next(node)
}

fn first_child(dom: &Dom, node: NodeId) -> Option<NodeId>
    requires { IsNumbered dom.now }
    ensures { nodes_from result dom.now.forest ≡ kids_of (Some node) dom.now.forest }
{
    laws_of_walks();
    dom.first(Some(node))
}

fn open_element(
    alloc: Global,
    walk: &mut Walk,
    name: &Text,
    attributes: &[Attr],
    later: Option<NodeId>,
) -> Result<(), OutOfMemory>
    ensures { OnOk result (walk.new
        ≡ walk_inside (Element walk.old.at_top later)
        (part.Element name.now attributes.now) false walk.old) }
{
    let name = name.copy(alloc)?;
    let attributes = copies(alloc, attributes)?;
    walk.parts.push(ViewPart::Element { name, attributes })?;
    walk.frames.push(Frame::Element {
        at_top: walk.at_top,
        later,
    })?;
    walk.at_top = false;
    Ok(())
}

fn copies(alloc: Global, attributes: &[Attr]) -> Result<Attributes, OutOfMemory>
    ensures { IfOk result (λ copies. copies ≡ attributes.now) }
{
    let mut copies = Attributes::new(alloc);
    for attribute in attributes {
        copies.push(attribute.copy(alloc)?)?;
    }
    Ok(copies)
}

/// Goes past a comment that stands before its later siblings.
fn pass_mark(
    alloc: Global,
    dom: &Dom,
    walk: &mut Walk,
    mark: Mark,
    later: Option<NodeId>,
) -> Result<(), OutOfMemory>
    ensures view { OnOk result
        ((prefix : List ℕ) (levels : Levels) → all_parts prefix dom.now.forest walk.new levels
        ≡ all_parts prefix dom.now.forest walk.old
        (levels_at_mark mark (nodes_from later dom.now.forest) levels)) }
    ensures top { OnOk result (walk.new.at_top ≡ walk.old.at_top) }
    ensures less { OnOk result (frames_turns dom.now.forest walk.new.frames
        ≤ frames_turns dom.now.forest walk.old.frames + 2) }
{
    match mark {
        Mark::Complete => open_boundary(walk, BoundaryStatus::Complete, Text::fixed("")),
        Mark::Pending => open_boundary(walk, BoundaryStatus::Pending, Text::fixed("")),
        Mark::Client => {
            let digest = digest_after(alloc, dom, later)?;
            open_boundary(walk, BoundaryStatus::Client, digest)
        }
        Mark::End => end_boundary(walk),
        Mark::Space => Ok(()),
    }
}

fn open_boundary(walk: &mut Walk, kind: BoundaryStatus, digest: Text) -> Result<(), OutOfMemory>
    ensures view { OnOk result ((prefix : List ℕ) (forest : Forest) (levels : Levels) →
        all_parts prefix forest walk.new levels
        ≡ all_parts prefix forest walk.old
        (levels_at_boundary kind digest levels.first levels.rest)) }
    ensures top { OnOk result (walk.new.at_top ≡ walk.old.at_top) }
    ensures less { OnOk result ((forest : Forest) →
        frames_turns forest walk.new.frames ≤ frames_turns forest walk.old.frames + 2) }
{
    walk.parts.push(ViewPart::Boundary { kind, digest })?;
    walk.frames.push(Frame::Boundary)?;
    Ok(())
}

/// The digest of a template that stands at the place.
fn digest_after(alloc: Global, dom: &Dom, place: Option<NodeId>) -> Result<Text, OutOfMemory>
    ensures { IfOk result (λ digest. digest ≡ digest_after (nodes_from place dom.now.forest)) }
{
    let Some(node) = place else {
        return Ok(Text::fixed(""));
    };
    match dom.look(node) {
        Some(DomNode::Element { name, attributes }) if is_template(name.as_bytes()) => {
            digest_in(alloc, attributes)
        }
        _ => Ok(Text::fixed("")),
    }
}

/// Ends the innermost frame if it is a boundary, and else does nothing.
fn end_boundary(walk: &mut Walk) -> Result<(), OutOfMemory>
    ensures view { OnOk result ((prefix : List ℕ) (forest : Forest) (levels : Levels) →
        all_parts prefix forest walk.new levels
        ≡ all_parts prefix forest walk.old (levels_at_end levels)) }
    ensures top { OnOk result (walk.new.at_top ≡ walk.old.at_top) }
    ensures less { OnOk result ((forest : Forest) →
        frames_turns forest walk.new.frames ≤ frames_turns forest walk.old.frames) }
{
    let Some(frame) = walk.frames.pop() else {
        return Ok(());
    };
    match frame {
        Frame::Boundary => walk.parts.push(ViewPart::EndOfBoundary)?,
        element => walk.frames.push(element)?,
    }
    Ok(())
}

/// Closes a frame where its siblings end, and says which node is next.
fn close(walk: &mut Walk, frame: Frame) -> Result<Option<NodeId>, OutOfMemory>
    ensures view { IfOk result
        (λ next. (prefix : List ℕ) (forest : Forest) → all_parts_from prefix forest walk.new next
        ≡ all_parts prefix forest (with_frame frame walk.old) no_levels) }
    ensures less { IfOk result (λ next. (forest : Forest) →
        turns forest walk.new next < frames_turns forest walk.old.frames + frame_turns forest frame) }
{
    match frame {
        Frame::Element { at_top, later } => {
            walk.parts.push(ViewPart::EndOfElement)?;
            walk.at_top = at_top;
            Ok(later)
        }
        Frame::Boundary => {
            walk.parts.push(ViewPart::EndOfBoundary)?;
            Ok(None)
        }
    }
}
