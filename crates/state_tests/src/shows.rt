//! Whether a view shows a tree in which all is settled, some boundaries pending.
//!
//! Elements and texts of the two are equal. A boundary that is pending shows the final document of its fallback. One that
//! is revealed shows its content, of which nothing failed. One that the client is to render shows the final document of its
//! fallback, and has the digest of a failure of its content.

use document_machine::{BoundaryStatus, View, ViewPart};
use fizz_text::{Attr, Attributes, Text};
use settled_tree::{FNode, Forest};

/// Whether a view shows a forest. What still waits in the forest has failed with the digest `unsettled`.
pub(super) fn is_shown(forest: &Forest, view: &View) -> bool {
    match after_nodes(forest.nodes.as_slice(), view.parts.as_slice()) {
        Some(left) => left.is_empty(),
        None => false,
    }
}

/// The parts behind those that show these nodes, if they show them.
#[cycle(shown)]
fn after_nodes<'v>(nodes: &[FNode], parts: &'v [ViewPart]) -> Option<&'v [ViewPart]> {
    let mut left = parts;
    for node in nodes {
        match after_node(node, left) {
            Some(more) => left = more,
            None => return None,
        }
    }
    Some(left)
}

#[cycle(shown)]
fn after_node<'v>(node: &FNode, parts: &'v [ViewPart]) -> Option<&'v [ViewPart]> {
    match node {
        FNode::Element {
            name,
            attributes,
            kids,
        } => match after_start(name, attributes, parts) {
            Some(inner) => after_end(after_nodes(kids.as_slice(), inner)),
            None => None,
        },
        FNode::Text(text) => after_text(text, parts),
        FNode::Boundary {
            content,
            fallback,
            ..
        } => match state_of(content.as_slice(), parts) {
            Seen::Content(inner) => after_boundary(after_nodes(content.as_slice(), inner)),
            Seen::Fallback(inner) => after_boundary(after_final(fallback.as_slice(), inner)),
            Seen::Nothing => None,
        },
        FNode::Fail(_) | FNode::Wait { .. } => None,
    }
}

/// What is seen of a boundary, with the parts behind its beginning.
enum Seen<'v> {
    Content(&'v [ViewPart]),
    Fallback(&'v [ViewPart]),
    /// No boundary, or one that can't be so.
    Nothing,
}

/// What is seen of a boundary with this content.
fn state_of<'v>(content: &[FNode], parts: &'v [ViewPart]) -> Seen<'v> {
    let Some((ViewPart::Boundary { kind, digest }, inner)) = parts.split_first() else {
        return Seen::Nothing;
    };
    match kind {
        BoundaryStatus::Complete => {
            if fails(content) {
                Seen::Nothing
            } else {
                Seen::Content(inner)
            }
        }
        BoundaryStatus::Pending => Seen::Fallback(inner),
        BoundaryStatus::Client => {
            if fails_with(content, digest) {
                Seen::Fallback(inner)
            } else {
                Seen::Nothing
            }
        }
    }
}

/// The parts behind those that are the final document of these nodes, if they are.
#[cycle(settled)]
fn after_final<'v>(nodes: &[FNode], parts: &'v [ViewPart]) -> Option<&'v [ViewPart]> {
    let mut left = parts;
    for node in nodes {
        match after_final_node(node, left) {
            Some(more) => left = more,
            None => return None,
        }
    }
    Some(left)
}

#[cycle(settled)]
fn after_final_node<'v>(node: &FNode, parts: &'v [ViewPart]) -> Option<&'v [ViewPart]> {
    match node {
        FNode::Element {
            name,
            attributes,
            kids,
        } => match after_start(name, attributes, parts) {
            Some(inner) => after_end(after_final(kids.as_slice(), inner)),
            None => None,
        },
        FNode::Text(text) => after_text(text, parts),
        FNode::Boundary {
            content,
            fallback,
            ..
        } => {
            if fails(content.as_slice()) {
                after_final(fallback.as_slice(), parts)
            } else {
                after_final(content.as_slice(), parts)
            }
        }
        FNode::Fail(_) | FNode::Wait { .. } => None,
    }
}

/// Whether nodes fail outside the contents of boundaries among them.
#[cycle(failed)]
fn fails(nodes: &[FNode]) -> bool {
    for node in nodes {
        if node_fails(node) {
            return true;
        }
    }
    false
}

#[cycle(failed)]
fn node_fails(node: &FNode) -> bool {
    match node {
        FNode::Element { kids, .. } => fails(kids.as_slice()),
        FNode::Text(_) => false,
        FNode::Boundary { fallback, .. } => fails(fallback.as_slice()),
        FNode::Fail(_) | FNode::Wait { .. } => true,
    }
}

/// Whether nodes fail so with this digest.
#[cycle(failed_with)]
fn fails_with(nodes: &[FNode], digest: &Text) -> bool {
    for node in nodes {
        if node_fails_with(node, digest) {
            return true;
        }
    }
    false
}

#[cycle(failed_with)]
fn node_fails_with(node: &FNode, digest: &Text) -> bool {
    match node {
        FNode::Element { kids, .. } => fails_with(kids.as_slice(), digest),
        FNode::Text(_) => false,
        FNode::Boundary { fallback, .. } => fails_with(fallback.as_slice(), digest),
        FNode::Fail(failed) => failed.as_bytes() == digest.as_bytes(),
        FNode::Wait { .. } => digest.as_bytes() == b"unsettled".as_slice(),
    }
}

/// The parts behind the beginning of this element, if they begin with it.
fn after_start<'v>(
    name: &Text,
    attributes: &Attributes,
    parts: &'v [ViewPart],
) -> Option<&'v [ViewPart]> {
    match parts.split_first() {
        Some(
            (
                ViewPart::Element {
                    name: seen,
                    attributes: seen_attributes,
                },
                inner,
            ),
        ) => {
            if seen.as_bytes() == name.as_bytes()
                && are_same(seen_attributes.as_slice(), attributes.as_slice())
            {
                Some(inner)
            } else {
                None
            }
        }
        _ => None,
    }
}

/// The parts behind the end of an element, if one ends here.
fn after_end(parts: Option<&[ViewPart]>) -> Option<&[ViewPart]> {
    let Some(parts) = parts else {
        return None;
    };
    match parts.split_first() {
        Some((ViewPart::EndOfElement, left)) => Some(left),
        _ => None,
    }
}

/// The parts behind the end of a boundary, if one ends here.
fn after_boundary(parts: Option<&[ViewPart]>) -> Option<&[ViewPart]> {
    let Some(parts) = parts else {
        return None;
    };
    match parts.split_first() {
        Some((ViewPart::EndOfBoundary, left)) => Some(left),
        _ => None,
    }
}

/// The parts behind this text, if they begin with it.
fn after_text<'v>(text: &Text, parts: &'v [ViewPart]) -> Option<&'v [ViewPart]> {
    match parts.split_first() {
        Some((ViewPart::Text(seen), left)) => {
            if seen.as_bytes() == text.as_bytes() {
                Some(left)
            } else {
                None
            }
        }
        _ => None,
    }
}

fn are_same(attributes: &[Attr], others: &[Attr]) -> bool {
    if attributes.len() != others.len() {
        return false;
    }
    for (attribute, other) in attributes.iter().zip(others) {
        if !is_same(attribute, other) {
            return false;
        }
    }
    true
}

fn is_same(attribute: &Attr, other: &Attr) -> bool {
    if attribute.name.as_bytes() != other.name.as_bytes() {
        return false;
    }
    match (&attribute.value, &other.value) {
        (Some(value), Some(other)) => value.as_bytes() == other.as_bytes(),
        (None, None) => true,
        _ => false,
    }
}
