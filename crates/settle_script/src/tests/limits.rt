//! Each limit from both sides, and large scripts.

use super::{check_bad_value, check_refused};
use crate::{Outcome, Value, read_script};
use fizz_text::Text;
use std::alloc::Global;
use std::test::Fail;

/// A script of so many equal lines.
fn lines(alloc: Global, count: u32) -> Result<String, Fail> {
    let mut text = String::from_str(alloc, "[{\"work\":1}")?;
    for _ in 1..count {
        text.push_str(",{\"work\":1}")?;
    }
    text.push(']')?;
    Ok(text)
}

/// So many lists around a number.
fn nested(alloc: Global, depth: u32) -> Result<String, Fail> {
    let mut text = String::new(alloc);
    for _ in 0..depth {
        text.push('[')?;
    }
    text.push('7')?;
    for _ in 0..depth {
        text.push(']')?;
    }
    Ok(text)
}

fn resolving(alloc: Global, value: &str) -> Result<String, Fail> {
    let mut text = String::from_str(alloc, "[{\"resolve\":\"a\",\"value\":")?;
    text.push_str(value)?;
    text.push_str("}]")?;
    Ok(text)
}

fn rejecting(alloc: Global, length: u32) -> Result<String, Fail> {
    let mut text = String::from_str(alloc, "[{\"reject\":\"a\",\"digest\":\"")?;
    for _ in 0..length {
        text.push('d')?;
    }
    text.push_str("\"}]")?;
    Ok(text)
}

#[test]
fn lines_and_digests(rt: HostRuntime) -> Result<(), Fail> {
    let alloc = rt.alloc();
    let script = read_script(alloc, lines(alloc, 65_536)?.as_bytes())?;
    assert_eq!(rt; script.events().len(), 65_536);
    let many = lines(alloc, 65_537)?;
    check_refused(
        &rt,
        alloc,
        many.as_bytes(),
        "TooManyEvents { count: 65537 }",
    )?;
    let script = read_script(alloc, rejecting(alloc, 1_024)?.as_bytes())?;
    assert_eq!(rt; script.outcomes().len(), 1);
    let long = rejecting(alloc, 1_025)?;
    check_refused(
        &rt,
        alloc,
        long.as_bytes(),
        "DigestTooLong { index: 0, length: 1025 }",
    )
}

/// A value may lie in 100 lists; JSON itself may nest 127.
#[test]
fn nesting(rt: HostRuntime) -> Result<(), Fail> {
    let alloc = rt.alloc();
    read_script(alloc, resolving(alloc, &nested(alloc, 100)?)?.as_bytes())?;
    for depth in [101, 125] {
        let deep = resolving(alloc, &nested(alloc, depth)?)?;
        check_refused(&rt, alloc, deep.as_bytes(), "BadValue { index: 0 }")?;
    }
    let deeper = resolving(alloc, &nested(alloc, 126)?)?;
    check_refused(&rt, alloc, deeper.as_bytes(), "NotJson")?;
    let mut fault = String::from_str(alloc, "Deep { path: Path { steps: [0")?;
    for _ in 1..101 {
        fault.push_str(", 0")?;
    }
    fault.push_str("] } }")?;
    check_bad_value(&rt, alloc, &nested(alloc, 101)?, &fault)
}

#[test]
fn a_million_items(rt: HostRuntime) -> Result<(), Fail> {
    let alloc = rt.alloc();
    let mut list = String::from_str(alloc, "[0")?;
    for _ in 1..1_000_000 {
        list.push_str(",0")?;
    }
    list.push(']')?;
    let script = read_script(alloc, resolving(alloc, &list)?.as_bytes())?;
    match script.outcomes().get(&Text::fixed("a"), 1) {
        Some(Outcome::Resolved(Value::List(items))) => assert_eq!(rt; items.len(), 1_000_000),
        _ => assert!(rt; false, "no list"),
    }
    Ok(())
}
