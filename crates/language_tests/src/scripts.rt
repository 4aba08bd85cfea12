//! Refused scripts with two faults.

use settle_script::{Outcomes, read_script};
use std::alloc::{AllocError, Global};
use std::test::Fail;

/// Scripts with their fault. Of two faults the one in the first line is told, and in one line the first of no event, a
/// digest that is too long, a bad value, and a name that is settled already. A digest of 1,025 bytes stands for `@`.
static PAIRS: [(&str, &str); 37] = [
    ("[{\"reject\":1,\"digest\":\"@\"}]", "NotEvent { index: 0 }"),
    (
        "[{\"reject\":\"a\",\"digest\":\"@\",\"work\":1}]",
        "NotEvent { index: 0 }",
    ),
    (
        "[{\"resolve\":\"a\",\"value\":1.5,\"digest\":\"@\"}]",
        "NotEvent { index: 0 }",
    ),
    (
        "[{\"resolve\":null,\"value\":1.5}]",
        "NotEvent { index: 0 }",
    ),
    (
        "[{\"resolve\":\"a\",\"value\":1},{\"resolve\":\"a\"}]",
        "NotEvent { index: 1 }",
    ),
    (
        "[{\"resolve\":\"a\",\"value\":1},{\"reject\":\"a\",\"digest\":1}]",
        "NotEvent { index: 1 }",
    ),
    (
        "[{\"reject\":\"a\",\"digest\":\"\"},{\"reject\":\"a\",\"digest\":\"@\"}]",
        "DigestTooLong { index: 1, length: 1025 }",
    ),
    (
        "[{\"reject\":\"a\",\"digest\":\"\"},{\"resolve\":\"a\",\"value\":[0.5]}]",
        "BadValue { index: 1 }",
    ),
    (
        "[{\"works\":1},{\"reject\":\"a\",\"digest\":\"@\"}]",
        "NotEvent { index: 0 }",
    ),
    (
        "[{\"reject\":\"a\",\"digest\":\"@\"},{\"works\":1}]",
        "DigestTooLong { index: 0, length: 1025 }",
    ),
    (
        "[1,{\"resolve\":\"a\",\"value\":1.5}]",
        "NotEvent { index: 0 }",
    ),
    (
        "[{\"resolve\":\"a\",\"value\":1.5},1]",
        "BadValue { index: 0 }",
    ),
    (
        "[{\"work\":1},{\"resolve\":\"a\",\"value\":1},{\"claim\":0},{\"resolve\":\"a\",\"value\":1}]",
        "NotEvent { index: 2 }",
    ),
    (
        "[{\"resolve\":\"a\",\"value\":1},{\"resolve\":\"a\",\"value\":1},{\"commit\":0}]",
        "SettledTwice { index: 1, first: 0 }",
    ),
    (
        "[{\"reject\":\"a\",\"digest\":\"@\"},{\"resolve\":\"b\",\"value\":1.5}]",
        "DigestTooLong { index: 0, length: 1025 }",
    ),
    (
        "[{\"resolve\":\"b\",\"value\":1.5},{\"reject\":\"a\",\"digest\":\"@\"}]",
        "BadValue { index: 0 }",
    ),
    (
        "[{\"reject\":\"a\",\"digest\":\"@\"},{\"reject\":\"a\",\"digest\":\"\"}]",
        "DigestTooLong { index: 0, length: 1025 }",
    ),
    (
        "[{\"resolve\":\"a\",\"value\":1},{\"resolve\":\"a\",\"value\":1},{\"reject\":\"b\",\"digest\":\"@\"}]",
        "SettledTwice { index: 1, first: 0 }",
    ),
    (
        "[{\"resolve\":\"a\",\"value\":1.5},{\"resolve\":\"a\",\"value\":1}]",
        "BadValue { index: 0 }",
    ),
    (
        "[{\"resolve\":\"a\",\"value\":1},{\"resolve\":\"a\",\"value\":1},{\"resolve\":\"b\",\"value\":1.5}]",
        "SettledTwice { index: 1, first: 0 }",
    ),
    ("[{\"works\":1},{}]", "NotEvent { index: 0 }"),
    ("[{\"work\":1},{},[]]", "NotEvent { index: 1 }"),
    (
        "[{\"reject\":\"a\",\"digest\":\"@\"},{\"reject\":\"b\",\"digest\":\"@@\"}]",
        "DigestTooLong { index: 0, length: 1025 }",
    ),
    (
        "[{\"resolve\":\"a\",\"value\":[1,{\"b\":0.5}]},{\"resolve\":\"b\",\"value\":-0}]",
        "BadValue { index: 0 }",
    ),
    (
        "[{\"resolve\":\"a\",\"value\":1},{\"reject\":\"a\",\"digest\":\"\"},{\"resolve\":\"a\",\"value\":2}]",
        "SettledTwice { index: 1, first: 0 }",
    ),
    (
        "[{\"resolve\":\"a\",\"value\":1},{\"resolve\":\"b\",\"value\":1},{\"flush\":0},{\"resolve\":\"b\",\"value\":1},{\"resolve\":\"a\",\"value\":1}]",
        "SettledTwice { index: 3, first: 1 }",
    ),
    ("[{\"works\":1}", "NotJson"),
    ("[{\"reject\":\"a\",\"digest\":\"@\"}", "NotJson"),
    ("[{\"resolve\":\"a\",\"value\":1.5}] 2", "NotJson"),
    (
        "[{\"resolve\":\"a\",\"value\":1},{\"resolve\":\"a\",\"value\":1},]",
        "NotJson",
    ),
    ("{\"works\":1}", "NotJson"),
    ("{\"reject\":\"a\",\"digest\":\"@\"}", "NotJson"),
    ("[[\"@\"]]", "NotEvent { index: 0 }"),
    (
        "[{\"reject\":\"a\",\"digest\":\"@@\"}]",
        "DigestTooLong { index: 0, length: 2050 }",
    ),
    (
        "[{\"reject\":\"@\",\"digest\":\"\"},{\"reject\":\"@\",\"digest\":\"\"}]",
        "SettledTwice { index: 1, first: 0 }",
    ),
    (
        "[{\"reject\":\"@\",\"digest\":\"@\"}]",
        "DigestTooLong { index: 0, length: 1025 }",
    ),
    (
        "[{\"resolve\":\"@\",\"value\":\"@\"},{\"resolve\":\"b\",\"value\":1e2}]",
        "BadValue { index: 1 }",
    ),
];

#[test]
fn the_first_of_two_faults(rt: HostRuntime) -> Result<(), Fail> {
    let report = differences(rt.alloc(), &PAIRS)?;
    assert!(&rt; report.is_empty(), "{report}");
    Ok(())
}

fn differences(alloc: Global, rows: &[(&str, &str)]) -> Result<String, AllocError> {
    let mut report = String::new(alloc);
    let digest = "d".repeat(alloc, 1_025)?;
    for (script, fault) in rows {
        let text = script.replace(alloc, '@', digest.as_str())?;
        push_unlike(alloc, &mut report, text.as_str(), fault)?;
    }
    Ok(report)
}

/// The lines before 65,536 lines of work, what stands behind these, and the fault.
static MANY: [(&str, &str, &str); 2] = [
    (
        "[{\"works\":1},{\"resolve\":\"a\",\"value\":1.5},{\"reject\":\"b\",\"digest\":\"@\"},{\"resolve\":\"b\",\"value\":1},{\"resolve\":\"b\",\"value\":1}",
        "]",
        "TooManyEvents { count: 65541 }",
    ),
    ("[{\"works\":1}", ",]", "NotJson"),
];

#[test]
fn too_many_lines_come_before_all_but_bad_json(rt: HostRuntime) -> Result<(), Fail> {
    let report = unlike_many(rt.alloc(), &MANY)?;
    assert!(&rt; report.is_empty(), "{report}");
    Ok(())
}

fn unlike_many(alloc: Global, rows: &[(&str, &str, &str)]) -> Result<String, AllocError> {
    let mut report = String::new(alloc);
    let digest = "d".repeat(alloc, 1_025)?;
    let lines = ",{\"work\":1}".repeat(alloc, 65_536)?;
    for (first, end, fault) in rows {
        let first = first.replace(alloc, '@', digest.as_str())?;
        let text = format!(in alloc; "{first}{lines}{end}")?;
        push_unlike(alloc, &mut report, text.as_str(), fault)?;
    }
    Ok(report)
}

#[test]
fn settlements_are_told_by_their_place(rt: HostRuntime) -> Result<(), Fail> {
    let script =
        b"[{\"resolve\":\"a\",\"value\":1},{\"work\":0},{\"reject\":\"b\",\"digest\":\"\"}]";
    let script = read_script(rt.alloc(), script.as_slice())?;
    let outcomes = script.outcomes();
    assert_eq!(rt; resource(outcomes, 0), "a");
    assert_eq!(rt; resource(outcomes, 1), "b");
    assert_eq!(rt; resource(outcomes, 2), "none");
    Ok(())
}

fn resource(outcomes: &Outcomes, place: u32) -> &str {
    match outcomes.name_at(place) {
        Some(name) => name.as_str(),
        None => "none",
    }
}

/// A line for a script that is answered otherwise.
fn push_unlike(
    alloc: Global,
    report: &mut String,
    script: &str,
    wanted: &str,
) -> Result<(), AllocError> {
    let found = fault_of(alloc, script)?;
    if found.as_str() == wanted {
        return Ok(());
    }
    let shown = script.get(..100).unwrap_or(script);
    let line = format!(in alloc; "{found} for {wanted}: {shown}\n")?;
    report.push_str(line.as_str())
}

fn fault_of(alloc: Global, script: &str) -> Result<String, AllocError> {
    match read_script(alloc, script.as_bytes()) {
        Ok(_) => String::from_str(alloc, "read"),
        Err(fault) => format!(in alloc; "{fault:?}"),
    }
}
