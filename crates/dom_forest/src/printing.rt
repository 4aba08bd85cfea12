//! The printing of a document of elements and texts.

ghost use Rattle.std.specs.Prelude.{◌≡◌, ◌<◌, ◌≤◌, ◌++◌, ◌∷◌, Bool, List, false, IfOk, OnOk, length};
ghost use Rattle.html_names.specs.Escape.{escape_of};
ghost use Rattle.dom_forest.specs.declared.document.DocPart.{DocPart};
ghost use Rattle.dom_forest.specs.declared.document.DocPart.TheVariants.{Element, End};
ghost use Rattle.dom_forest.specs.Documents.{levels_after, levels_of, nodes_in};
ghost use Rattle.dom_forest.specs.OpenElements.{left_bytes, turns_left};
ghost use Rattle.html_names.specs.Printing.{attribute_spelling, attributes_spelling, end_tag, tag_prefix};
ghost use Rattle.dom_forest.specs.Printing.{is_void, printed_nodes, text_bytes};

use crate::document::{Doc, DocPart};
use fizz_text::{Attr, Attributes, OutOfMemory, Text};
use html_names::{element, push_escaped};
use std::alloc::Global;

/// An element that was begun: its name for the end tag.
#[derive(Drop)]
struct Open<'a> {
    name: &'a Text,
}

/// Where the printing goes on, and whether a text was printed last.
#[derive(Drop)]
struct Next<'a> {
    parts: &'a [DocPart],
    after_text: bool,
}

/// The bytes of a document as React's server renderer prints elements and texts: `<!-- -->` stands between two
/// neighbouring texts, texts and values are escaped, and a void element is `<br/>` whatever it holds. The open elements
/// are kept in a list, so a deep document takes memory and no stack.
pub fn print_doc(alloc: Global, doc: &Doc) -> Result<Vec<u8>, OutOfMemory>
    ensures { IfOk result (λ out. out.items ≡ printed_nodes (nodes_in doc.now.parts)) }
{
    let mut out = Vec::new(alloc);
    let mut open: Vec<Open<'_>> = Vec::new(alloc);
    let mut next = Next {
        parts: doc.parts.as_slice(),
        after_text: false,
    };
    'parts: loop {
        match next.parts.split_first() {
            Some((part, later)) => {
                next = print_part(&mut out, &mut open, next.after_text, part, later)?;
            }
            None => match open.pop() {
                Some(element) => {
                    push_end_tag(&mut out, element.name)?;
                    next.after_text = false;
                }
                None => return Ok(out),
            },
        }
    }
}

/// Prints a part, or begins what it begins.
fn print_part<'a>(
    out: &mut Vec<u8>,
    unfinished: &mut Vec<Open<'a>>,
    after_text: bool,
    part: &'a DocPart,
    later: &'a [DocPart],
) -> Result<Next<'a>, OutOfMemory>
    ensures bytes { IfOk result
        (λ next. out.new.items ++ left_bytes next.after_text next.parts.now unfinished.new.items
        ≡ out.old.items ++ left_bytes after_text (part.now ∷ later.now) unfinished.old.items) }
    ensures fewer { IfOk result (λ next. turns_left next.parts.now unfinished.new.items
        < turns_left (part.now ∷ later.now) unfinished.old.items) }
{
    match part {
        DocPart::Text(text) => {
            push_text(out, after_text, text)?;
            Ok(Next {
                parts: later,
                after_text: true,
            })
        }
        DocPart::Element { name, attributes } => {
            let parts = begin_element(out, unfinished, name, attributes, later)?;
            Ok(Next {
                parts,
                after_text: false,
            })
        }
        DocPart::End => {
            let after_text = end_element(out, unfinished, after_text)?;
            Ok(Next {
                parts: later,
                after_text,
            })
        }
    }
}

/// Begins an element, or writes a void one and passes over what it holds. The parts that are next come back.
fn begin_element<'a>(
    out: &mut Vec<u8>,
    unfinished: &mut Vec<Open<'a>>,
    name: &'a Text,
    attributes: &Attributes,
    later: &'a [DocPart],
) -> Result<&'a [DocPart], OutOfMemory>
    ensures bytes { (after_text : Bool) →
        IfOk result (λ parts. out.new.items ++ left_bytes false parts.now unfinished.new.items
        ≡ out.old.items
        ++ left_bytes after_text
        (Element name.now attributes.now ∷ later.now) unfinished.old.items) }
    ensures fewer { IfOk result (λ parts. turns_left parts.now unfinished.new.items
        < turns_left (Element name.now attributes.now ∷ later.now) unfinished.old.items) }
{
    push_tag_front(out, name, attributes.as_slice())?;
    if is_void_name(name) {
        out.extend_from_slice(b"/>")?;
        return Ok(after_element(later));
    }
    out.push(b'>')?;
    unfinished.push(Open { name })?;
    Ok(later)
}

/// The parts after the end of an element that is open.
fn after_element(parts: &[DocPart]) -> &[DocPart]
    ensures levels { levels_of result.now ≡ levels_after (levels_of parts.now).rest }
    ensures fewer { length result.now ≤ length parts.now }
{
    let mut rest = parts;
    let mut open: usize = 1;
    while open > 0 {
        let Some((part, later)) = rest.split_first() else {
            return rest;
        };
        match part {
            DocPart::Element { .. } => open += 1,
            DocPart::Text(_) => {}
            DocPart::End => open -= 1,
        }
        rest = later;
    }
    rest
}

/// Ends the innermost element, if one is open, and says whether a text was printed last.
fn end_element(
    out: &mut Vec<u8>,
    unfinished: &mut Vec<Open<'_>>,
    after_text: bool,
) -> Result<bool, OutOfMemory>
    ensures bytes { IfOk result
        (λ after. (later : List DocPart) →
        out.new.items ++ left_bytes after later unfinished.new.items
        ≡ out.old.items ++ left_bytes after_text (End ∷ later) unfinished.old.items) }
    ensures fewer { length unfinished.new.items ≤ length unfinished.old.items }
{
    match unfinished.pop() {
        Some(element) => {
            push_end_tag(out, element.name)?;
            Ok(false)
        }
        None => Ok(after_text),
    }
}

fn is_void_name(name: &Text) -> bool
    ensures { result ≡ is_void name.now }
{
    element(name.as_bytes()).is_some_and(|element| element.is_void)
}

fn push_text(out: &mut Vec<u8>, after_text: bool, text: &Text) -> Result<(), OutOfMemory>
    ensures { OnOk result (out.new.items ≡ out.old.items ++ text_bytes after_text text.now) }
{
    if after_text {
        out.extend_from_slice(b"<!-- -->")?;
    }
    push_spelled(out, text)
}

/// Appends `<`, the name and the attributes.
fn push_tag_front(out: &mut Vec<u8>, name: &Text, attributes: &[Attr]) -> Result<(), OutOfMemory>
    ensures { OnOk result (out.new.items ≡ out.old.items ++ tag_prefix name.now attributes.now) }
{
    out.push(b'<')?;
    out.extend_from_slice(name.as_bytes())?;
    push_attributes(out, attributes)
}

fn push_attributes(out: &mut Vec<u8>, attributes: &[Attr]) -> Result<(), OutOfMemory>
    ensures { OnOk result (out.new.items ≡ out.old.items ++ attributes_spelling attributes.now) }
{
    for attribute in attributes {
        push_attribute(out, attribute)?;
    }
    Ok(())
}

fn push_attribute(out: &mut Vec<u8>, attribute: &Attr) -> Result<(), OutOfMemory>
    ensures { OnOk result (out.new.items ≡ out.old.items ++ attribute_spelling attribute.now) }
{
    out.push(b' ')?;
    out.extend_from_slice(attribute.name.as_bytes())?;
    if let Some(value) = &attribute.value {
        out.extend_from_slice(b"=\"")?;
        push_spelled(out, value)?;
        out.push(b'"')?;
    }
    Ok(())
}

fn push_end_tag(out: &mut Vec<u8>, name: &Text) -> Result<(), OutOfMemory>
    ensures { OnOk result (out.new.items ≡ out.old.items ++ end_tag name.now) }
{
    out.extend_from_slice(b"</")?;
    out.extend_from_slice(name.as_bytes())?;
    out.push(b'>')?;
    Ok(())
}

/// Appends the escaped text.
fn push_spelled(out: &mut Vec<u8>, text: &Text) -> Result<(), OutOfMemory>
    ensures { OnOk result (out.new.items ≡ out.old.items ++ escape_of text.now) }
{
    match push_escaped(out, text.as_bytes()) {
        Ok(()) => Ok(()),
        Err(_) => Err(OutOfMemory),
    }
}
