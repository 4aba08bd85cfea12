//! What a view leaves out of a document.

ghost use Rattle.std.specs.Prelude.{◌≡◌, [], ◌++◌, ◌&&◌, IfOk, codes, unwrap_or};
ghost use Rattle.std.specs.List.{list_any};
ghost use Rattle.std.specs.Str.{bytes_eq};
ghost use Rattle.html_names.specs.Names.{begins_with};
ghost use Rattle.document_machine.specs.Views.{digest_in, has_name, is_container, is_left_out, is_segment_id};

use fizz_text::{Attr, OutOfMemory, Text};
use std::alloc::Global;

/// Whether an element is left out: a template anywhere, and at the top the hidden container of a segment.
pub(crate) fn is_left_out(prefix: &[u8], at_top: bool, name: &[u8], attributes: &[Attr]) -> bool
    ensures { result ≡ is_left_out prefix.now at_top name.now attributes.now }
{
    is_template(name) || (at_top && is_container(prefix, name, attributes))
}

pub(crate) fn is_template(name: &[u8]) -> bool
    ensures { result ≡ bytes_eq name.now (codes "template") }
{
    name == b"template".as_slice()
}

fn is_container(prefix: &[u8], name: &[u8], attributes: &[Attr]) -> bool
    ensures { result ≡ is_container prefix.now name.now attributes.now }
{
    is_hidden_division(name, attributes) && has_segment_id(prefix, attributes)
}

fn is_hidden_division(name: &[u8], attributes: &[Attr]) -> bool
    ensures { result
        ≡ (bytes_eq name.now (codes "div") && has_name (codes "hidden") attributes.now) }
{
    name == b"div".as_slice() && has_name(b"hidden", attributes)
}

fn has_name(name: &[u8], attributes: &[Attr]) -> bool
    ensures { result ≡ has_name name.now attributes.now }
{
    attributes
        .iter()
        .any(|attribute| attribute.name.as_bytes() == name)
}

fn has_segment_id(prefix: &[u8], attributes: &[Attr]) -> bool
    ensures { result ≡ list_any (is_segment_id prefix.now) attributes.now }
{
    attributes
        .iter()
        .any(|attribute| is_segment_id(prefix, attribute))
}

fn is_segment_id(prefix: &[u8], attribute: &Attr) -> bool
    ensures { result ≡ is_segment_id prefix.now attribute.now }
{
    attribute.name.as_bytes() == b"id".as_slice() && names_segment(prefix, value_of(attribute))
}

fn value_of(attribute: &Attr) -> &[u8]
    ensures { result.now ≡ unwrap_or attribute.now.value [] }
{
    match &attribute.value {
        Some(value) => value.as_bytes(),
        None => b"",
    }
}

/// Whether a value begins with the prefix and `S:`.
fn names_segment(prefix: &[u8], value: &[u8]) -> bool
    ensures { result ≡ begins_with (prefix.now ++ codes "S:") value.now }
{
    match value.strip_prefix(prefix) {
        Some(rest) => rest.starts_with(b"S:"),
        None => false,
    }
}

/// The value of the first attribute that holds the digest of a boundary's error; empty where there is none.
pub(crate) fn digest_in(alloc: Global, attributes: &[Attr]) -> Result<Text, OutOfMemory>
    ensures { IfOk result (λ digest. digest ≡ digest_in attributes.now) }
{
    for attribute in attributes {
        if attribute.name.as_bytes() == b"data-dgst".as_slice() {
            return match &attribute.value {
                Some(value) => value.copy(alloc),
                None => Ok(Text::fixed("")),
            };
        }
    }
    Ok(Text::fixed(""))
}
