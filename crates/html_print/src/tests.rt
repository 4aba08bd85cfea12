//! Printed tags and texts.

use crate::{is_void_name, push_end_tag, push_separator, push_start_tag, push_text, push_void_tag};
use fizz_text::{Attr, Attributes, OutOfMemory, Text};
use std::alloc::Global;
use std::process::Abort;
use std::test::Fail;

fn one_attribute(
    alloc: Global,
    name: &'static str,
    value: Option<&'static str>,
) -> Result<Attributes, OutOfMemory> {
    let mut attributes = Attributes::new(alloc);
    attributes.push(Attr {
        name: Text::fixed(name),
        value: value.map(Text::fixed),
    })?;
    Ok(attributes)
}

#[test]
fn an_element_and_its_texts_print(rt: HostRuntime) -> Result<(), Fail> {
    let alloc = rt.alloc();
    let name = Text::fixed("p");
    let attributes = one_attribute(alloc, "title", Some("it's"))?;
    let mut out = Vec::new(alloc);
    push_start_tag(&mut out, &name, attributes.as_slice())?;
    push_text(&mut out, false, &Text::fixed("a<b"))?;
    push_text(&mut out, true, &Text::fixed("c"))?;
    push_end_tag(&mut out, &name)?;
    let wanted = "<p title=\"it&#x27;s\">a&lt;b<!-- -->c</p>";
    assert_eq!(&rt; out.as_slice(), wanted.as_bytes());
    Ok(())
}

#[test]
fn a_void_tag_prints(rt: HostRuntime) -> Result<(), Fail> {
    let alloc = rt.alloc();
    let attributes = one_attribute(alloc, "hidden", None)?;
    let mut out = Vec::new(alloc);
    push_void_tag(&mut out, &Text::fixed("br"), attributes.as_slice())?;
    assert_eq!(&rt; out.as_slice(), b"<br hidden/>".as_slice());
    assert!(&rt; is_void_name(&Text::fixed("wbr")));
    assert!(&rt; !is_void_name(&Text::fixed("p")));
    Ok(())
}

#[test]
fn a_separator_stands_after_a_text_alone(rt: HostRuntime) -> Result<(), Fail> {
    let mut out = Vec::new(rt.alloc());
    push_separator(&mut out, false)?;
    assert_eq!(&rt; out.as_slice(), b"".as_slice());
    push_separator(&mut out, true)?;
    assert_eq!(&rt; out.as_slice(), b"<!-- -->".as_slice());
    Ok(())
}
