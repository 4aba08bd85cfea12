//! Pages that need nothing of a script: elements and texts alone.

ghost use Rattle.std.specs.Prelude.{◌≡◌, Some};
ghost use Rattle.std.specs.List.{list_all};
ghost use Rattle.html_names.specs.Elements.{void_flag};
ghost use Rattle.html_names.specs.Names.{is_letter, is_name_byte, is_plain_name};
ghost use Rattle.jsx_value.specs.Spots.{none};
ghost use Rattle.settled_tree.specs.Forests.{node_spots, spots_in};
ghost use Rattle.fizz_cli.specs.StillPages.{is_none, is_own_id, is_still, is_still_attribute, is_still_text, is_still_value, may_hold};

use fizz_text::{Attr, Text};
use html_names::{element, is_reserved_id};
use settled_tree::FNode;

/// The most elements that may be open at a place of a page.
pub(crate) const MOST_OPEN: u32 = 512;

/// Whether nodes are elements and texts alone, as a page may print them where so many more elements may be open. The
/// recursion goes down the nodes, of which at most 256 lie in one another.
#[cycle(still)]
pub(crate) fn are_still(prefix: &Text, nodes: &[FNode], room: u32) -> bool
    ensures { result ≡ is_still prefix.now (spots_in nodes.now) room }
{
    for node in nodes {
        if !is_still(prefix, node, room) {
            return false;
        }
    }
    true
}

#[cycle(still)]
fn is_still(prefix: &Text, node: &FNode, room: u32) -> bool
    ensures { result ≡ is_still prefix.now (node_spots node.now none) room }
{
    match node {
        FNode::Element {
            name,
            attributes,
            kids,
        } => {
            are_still_attributes(prefix, attributes.as_slice())
                && may_hold(prefix, name, kids.as_slice(), room)
        }
        FNode::Text(text) => is_still_text(text),
        FNode::Boundary { .. } | FNode::Fail(_) | FNode::Wait { .. } => false,
    }
}

/// Whether an element of this name may hold the nodes: none where it is void.
#[cycle(still)]
fn may_hold(prefix: &Text, name: &Text, kids: &[FNode], room: u32) -> bool
    ensures { result ≡ may_hold (void_flag name.now) (is_none (spots_in kids.now)) (is_still prefix.now (spots_in kids.now)) room }
{
    match element(name.as_bytes()) {
        Some(found) if found.is_void => kids.is_empty(),
        Some(_) => room > 0 && are_still(prefix, kids, room - 1),
        None => false,
    }
}

/// Whether a text may be printed: it isn't empty.
fn is_still_text(text: &Text) -> bool
    ensures { result ≡ is_still_text text.now }
{
    !text.as_bytes().is_empty()
}

fn are_still_attributes(prefix: &Text, attributes: &[Attr]) -> bool
    ensures { result ≡ list_all (is_still_attribute prefix.now) attributes.now }
{
    attributes
        .iter()
        .all(|attribute| is_still_attribute(prefix, attribute))
}

/// Whether an attribute may be printed: it has a name of the form, a value, and is no id of the renderer's own form.
fn is_still_attribute(prefix: &Text, attribute: &Attr) -> bool
    ensures { result ≡ is_still_attribute prefix.now attribute.now }
{
    match &attribute.value {
        Some(value) => {
            is_plain_name(attribute.name.as_bytes())
                && is_still_value(prefix, &attribute.name, value)
        }
        None => false,
    }
}

fn is_still_value(prefix: &Text, name: &Text, value: &Text) -> bool
    ensures { result ≡ is_still_value prefix.now name.now (Some value.now) }
{
    !is_own_id(prefix, name, value.as_bytes())
}

fn is_own_id(prefix: &Text, name: &Text, value: &[u8]) -> bool
    ensures { result ≡ is_own_id prefix.now name.now value.now }
{
    name.as_bytes() == b"id".as_slice() && is_reserved_id(prefix.as_bytes(), value)
}

/// Whether a name is a letter followed by letters, digits and `-`.
fn is_plain_name(name: &[u8]) -> bool
    ensures { result ≡ is_plain_name name.now }
{
    match name.split_first() {
        Some((first, more)) => is_letter(*first) && are_name_bytes(more),
        None => false,
    }
}

fn are_name_bytes(bytes: &[u8]) -> bool
    ensures { result ≡ list_all is_name_byte bytes.now }
{
    bytes.iter().all(|byte| is_name_byte(*byte))
}

fn is_letter(byte: u8) -> bool
    ensures { result ≡ is_letter byte }
{
    matches!(byte, b'A'..=b'Z' | b'a'..=b'z')
}

fn is_name_byte(byte: u8) -> bool
    ensures { result ≡ is_name_byte byte }
{
    is_letter(byte) || matches!(byte, b'0'..=b'9') || byte == b'-'
}
