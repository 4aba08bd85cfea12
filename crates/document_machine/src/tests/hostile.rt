//! Pages that nest about as deep as they are long: boundaries in boundaries, and containers that are moved each into the
//! one before.

ghost use Rattle.std.specs.Prelude.{◌<◌, ◌^◌, length};

use crate::{Machine, MachineFault, SettledRefused, View};
use dom_forest::print_doc;
use fizz_text::{Text, hex_of};
use std::alloc::{AllocError, Global};
use std::process::Abort;
use std::test::Fail;

/// The most bytes of a page here.
const MOST: usize = 16_777_216;

/// How many `<b>` a container holds, each in the one before.
const NESTED: usize = 508;

/// How many containers there are.
const CONTAINERS: u32 = 60;

const FILLS: &str =
    "$RS=function(s,p){s=document.getElementById(s);p=document.getElementById(p);for(s.parentNode.removeChild(s);s.firstChild;)p.parentNode.insertBefore(s.firstChild,p);p.parentNode.removeChild(p)};";

fn run(alloc: Global, page: &[u8]) -> Result<View, MachineFault> {
    let mut machine = Machine::new(alloc, Text::fixed(""));
    if page.len() < MOST {
        machine.feed(page)?;
    }
    machine.finish()
}

fn push_repeated(out: &mut Vec<u8>, part: &str, times: usize) -> Result<(), AllocError> {
    for _ in 0..times {
        out.extend_from_slice(part.as_bytes())?;
    }
    Ok(())
}

/// A marker, how often it stands, how many boundaries are pending, and whether there is a settled document.
static MARKERS: [(&str, usize, u64); 3] = [
    ("<!--$-->", 60_000, 0),
    ("<!--$?-->", 100_000, 100_000),
    ("<!--$-->", 1_000_000, 0),
];

#[test]
fn boundaries_nest_without_end(rt: HostRuntime) -> Result<(), Fail> {
    check_markers(&rt, rt.alloc(), &MARKERS)
}

fn check_markers(rt: &impl Abort, alloc: Global, cases: &[(&str, usize, u64)]) -> Result<(), Fail> {
    for (marker, times, pending) in cases {
        let mut page = Vec::new(alloc);
        push_repeated(&mut page, marker, *times)?;
        let view = run(alloc, &page).map_err(|_| Fail::from("a fault"))?;
        assert_eq!(rt; view.counts().boundaries, *times as u64);
        match view.settled(alloc) {
            Ok(doc) => {
                assert_eq!(rt; *pending, 0);
                assert_eq!(rt; print_doc(alloc, &doc)?.len(), 0);
            }
            Err(SettledRefused::StillPending { count }) => assert_eq!(rt; count, *pending),
            Err(SettledRefused::OutOfMemory) => return Err(Fail::from("no memory")),
        }
    }
    Ok(())
}

/// A placeholder, and containers that hold nested elements around the next placeholder, each moved into its own.
fn moved_containers(alloc: Global) -> Result<Vec<u8>, Fail> {
    let mut page = Vec::from_slice(alloc, b"<template id=\"P:0\"></template>")?;
    for number in 0..CONTAINERS {
        push_container(&mut page, number)?;
        page.extend_from_slice(b"<script>")?;
        if number == 0 {
            page.extend_from_slice(FILLS.as_bytes())?;
        }
        push_call(&mut page, number)?;
        page.extend_from_slice(b"</script>")?;
    }
    Ok(page)
}

fn push_container(page: &mut Vec<u8>, number: u32) -> Result<(), Fail> {
    page.extend_from_slice(b"<div hidden id=\"S:")?;
    page.extend_from_slice(hex_of(number).as_bytes())?;
    page.extend_from_slice(b"\">")?;
    push_repeated(page, "<b>", NESTED)?;
    page.extend_from_slice(b"<template id=\"P:")?;
    page.extend_from_slice(hex_of(number.saturating_add(1)).as_bytes())?;
    page.extend_from_slice(b"\"></template>")?;
    push_repeated(page, "</b>", NESTED)?;
    page.extend_from_slice(b"</div>")?;
    Ok(())
}

fn push_call(page: &mut Vec<u8>, number: u32) -> Result<(), Fail> {
    let id = hex_of(number);
    page.extend_from_slice(b"$RS(\"S:")?;
    page.extend_from_slice(id.as_bytes())?;
    page.extend_from_slice(b"\",\"P:")?;
    page.extend_from_slice(id.as_bytes())?;
    page.extend_from_slice(b"\")")?;
    Ok(())
}

#[test]
fn moved_containers_nest_without_end(rt: HostRuntime) -> Result<(), Fail> {
    let alloc = rt.alloc();
    let page = moved_containers(alloc)?;
    let view = run(alloc, &page).map_err(|_| Fail::from("a fault"))?;
    let doc = view.settled(alloc).map_err(|_| Fail::from("pending"))?;
    // 60 * 508 elements, each `<b></b>`
    assert_eq!(rt; print_doc(alloc, &doc)?.len(), 213_360);
    Ok(())
}
