//! The tags of elements.

ghost use Rattle.std.specs.Prelude.{◌≡◌, ◌++◌, OnOk};
ghost use Rattle.html_names.specs.Printing.{attribute_spelling, attributes_spelling, end_tag, tag_prefix};
ghost use Rattle.html_print.specs.Tags.{is_void, start_tag, void_tag};

use crate::texts::push_spelled;
use fizz_text::{Attr, OutOfMemory, Text};
use html_names::element;

/// Whether HTML has a void element of this name, which has no content and no end tag.
pub fn is_void_name(name: &Text) -> bool
    ensures { result ≡ is_void name.now }
{
    element(name.as_bytes()).is_some_and(|element| element.is_void)
}

/// Appends `<name attributes>`.
pub fn push_start_tag(
    out: &mut Vec<u8>,
    name: &Text,
    attributes: &[Attr],
) -> Result<(), OutOfMemory>
    ensures { OnOk result (out.new.items ≡ out.old.items ++ start_tag name.now attributes.now) }
{
    push_tag_front(out, name, attributes)?;
    out.push(b'>')?;
    Ok(())
}

/// Appends `<name attributes/>`.
pub fn push_void_tag(out: &mut Vec<u8>, name: &Text, attributes: &[Attr]) -> Result<(), OutOfMemory>
    ensures { OnOk result (out.new.items ≡ out.old.items ++ void_tag name.now attributes.now) }
{
    push_tag_front(out, name, attributes)?;
    out.extend_from_slice(b"/>")?;
    Ok(())
}

/// Appends `</name>`.
pub fn push_end_tag(out: &mut Vec<u8>, name: &Text) -> Result<(), OutOfMemory>
    ensures { OnOk result (out.new.items ≡ out.old.items ++ end_tag name.now) }
{
    out.extend_from_slice(b"</")?;
    out.extend_from_slice(name.as_bytes())?;
    out.push(b'>')?;
    Ok(())
}

/// Appends `<`, the name and the attributes.
fn push_tag_front(out: &mut Vec<u8>, name: &Text, attributes: &[Attr]) -> Result<(), OutOfMemory>
    ensures { OnOk result (out.new.items ≡ out.old.items ++ tag_prefix name.now attributes.now) }
{
    out.push(b'<')?;
    out.extend_from_slice(name.as_bytes())?;
    push_attributes(out, attributes)
}

fn push_attributes(out: &mut Vec<u8>, attributes: &[Attr]) -> Result<(), OutOfMemory>
    ensures { OnOk result (out.new.items ≡ out.old.items ++ attributes_spelling attributes.now) }
{
    for attribute in attributes {
        push_attribute(out, attribute)?;
    }
    Ok(())
}

fn push_attribute(out: &mut Vec<u8>, attribute: &Attr) -> Result<(), OutOfMemory>
    ensures { OnOk result (out.new.items ≡ out.old.items ++ attribute_spelling attribute.now) }
{
    out.push(b' ')?;
    out.extend_from_slice(attribute.name.as_bytes())?;
    if let Some(value) = &attribute.value {
        out.extend_from_slice(b"=\"")?;
        push_spelled(out, value)?;
        out.push(b'"')?;
    }
    Ok(())
}
