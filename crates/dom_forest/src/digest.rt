//! The attribute that holds the digest of a boundary's error.

ghost use Rattle.std.specs.Prelude.{◌≡◌, ◌++◌, IfOk, OnOk, filter, not};
ghost use Rattle.std.specs.List.{prefix_len};
ghost use Rattle.dom_forest.specs.Edits.{digest_attribute, digest_set, is_digest, with_digest};

use crate::node::NewNode;
use fizz_text::{Attr, Attributes, OutOfMemory, Text};
use std::alloc::Global;

/// A copy of a node in which an element has the digest.
pub(crate) fn digest_set(
    alloc: Global,
    node: &NewNode,
    digest: Text,
) -> Result<NewNode, OutOfMemory>
    ensures { IfOk result (λ n. n ≡ digest_set digest node.now) }
{
    match node {
        NewNode::Element { name, attributes } => Ok(NewNode::Element {
            name: name.copy(alloc)?,
            attributes: with_digest(alloc, attributes.as_slice(), digest)?,
        }),
        NewNode::Text(text) => Ok(NewNode::Text(text.copy(alloc)?)),
        NewNode::Comment(mark) => Ok(NewNode::Comment(*mark)),
    }
}

/// Copies of the attributes, with the digest in place of all that had its name, or at the end.
fn with_digest(alloc: Global, attributes: &[Attr], digest: Text) -> Result<Attributes, OutOfMemory>
    ensures { IfOk result (λ a. a ≡ with_digest digest attributes.now) }
{
    let (before, after) = attributes.split_at(others_before(attributes));
    let mut set = Attributes::new(alloc);
    push_others(alloc, &mut set, before)?;
    set.push(attribute_of(digest))?;
    push_others(alloc, &mut set, after)?;
    Ok(set)
}

fn attribute_of(digest: Text) -> Attr
    ensures { result ≡ digest_attribute digest }
{
    Attr {
        name: Text::fixed("data-dgst"),
        value: Some(digest),
    }
}

fn names_digest(attribute: &Attr) -> bool
    ensures { result ≡ is_digest attribute.now }
{
    attribute.name.as_bytes() == b"data-dgst".as_slice()
}

/// How many attributes stand before the first of that name.
fn others_before(attributes: &[Attr]) -> usize
    ensures { result ≡ prefix_len (λ a. not (is_digest a)) attributes.now }
{
    attributes
        .iter()
        .take_while(|attribute| !names_digest(attribute))
        .count()
}

/// Appends copies of the attributes of other names.
fn push_others(alloc: Global, set: &mut Attributes, attributes: &[Attr]) -> Result<(), OutOfMemory>
    ensures { OnOk result (set.new ≡ set.old ++ filter (λ a. not (is_digest a)) attributes.now) }
{
    for attribute in attributes {
        if !names_digest(attribute) {
            set.push(attribute.copy(alloc)?)?;
        }
    }
    Ok(())
}
