//! Refused scripts and values.

use super::{check_bad_value, check_refused, join, script};
use crate::JoinFault;
use std::test::Fail;

/// Scripts with their fault, and scripts with two.
static REFUSED: [(&str, &str); 36] = [
    ("", "NotJson"),
    ("{}", "NotJson"),
    ("null", "NotJson"),
    ("[1", "NotJson"),
    ("[{\"work\":1}] 2", "NotJson"),
    ("[{\"work\":1},]", "NotJson"),
    ("[1]", "NotEvent { index: 0 }"),
    ("[[]]", "NotEvent { index: 0 }"),
    ("[{}]", "NotEvent { index: 0 }"),
    ("[{\"works\":1}]", "NotEvent { index: 0 }"),
    ("[{\"work\":-1}]", "NotEvent { index: 0 }"),
    ("[{\"work\":1.0}]", "NotEvent { index: 0 }"),
    ("[{\"work\":4294967296}]", "NotEvent { index: 0 }"),
    ("[{\"flush\":\"1\"}]", "NotEvent { index: 0 }"),
    ("[{\"flush\":4294967296}]", "NotEvent { index: 0 }"),
    ("[{\"work\":1,\"flush\":1}]", "NotEvent { index: 0 }"),
    ("[{\"claim\":0}]", "NotEvent { index: 0 }"),
    ("[{\"commit\":0}]", "NotEvent { index: 0 }"),
    ("[{\"resolve\":\"a\"}]", "NotEvent { index: 0 }"),
    ("[{\"value\":1}]", "NotEvent { index: 0 }"),
    ("[{\"resolve\":1,\"value\":1}]", "NotEvent { index: 0 }"),
    (
        "[{\"resolve\":\"a\",\"digest\":\"d\"}]",
        "NotEvent { index: 0 }",
    ),
    (
        "[{\"reject\":\"a\",\"value\":\"d\"}]",
        "NotEvent { index: 0 }",
    ),
    ("[{\"reject\":\"a\",\"digest\":1}]", "NotEvent { index: 0 }"),
    (
        "[{\"reject\":null,\"digest\":\"d\"}]",
        "NotEvent { index: 0 }",
    ),
    (
        "[{\"resolve\":\"a\",\"value\":1,\"zone\":1}]",
        "NotEvent { index: 0 }",
    ),
    (
        "[{\"resolve\":\"a\",\"value\":1.5}]",
        "BadValue { index: 0 }",
    ),
    (
        "[{\"resolve\":\"a\",\"value\":[{\"b\":9223372036854775808}]}]",
        "BadValue { index: 0 }",
    ),
    (
        "[{\"work\":1},{\"resolve\":\"a\",\"value\":-0}]",
        "BadValue { index: 1 }",
    ),
    (
        "[{\"resolve\":\"a\",\"value\":1},{\"reject\":\"a\",\"digest\":\"d\"}]",
        "SettledTwice { index: 1, first: 0 }",
    ),
    (
        "[{\"work\":0},{\"reject\":\"a\",\"digest\":\"\"},{\"flush\":0},{\"resolve\":\"b\",\"value\":1},{\"resolve\":\"a\",\"value\":1}]",
        "SettledTwice { index: 4, first: 1 }",
    ),
    (
        "[{\"resolve\":\"a\",\"value\":1},{\"resolve\":\"a\",\"value\":1.5},{\"works\":1}]",
        "BadValue { index: 1 }",
    ),
    ("[{\"resolve\":1,\"value\":1.5}]", "NotEvent { index: 0 }"),
    (
        "[{\"works\":1},{\"resolve\":\"a\",\"value\":1.5}]",
        "NotEvent { index: 0 }",
    ),
    (
        "[{\"resolve\":\"a\",\"value\":1.5},{\"works\":1}]",
        "BadValue { index: 0 }",
    ),
    ("[{\"works\":1}", "NotJson"),
];

/// JSON with the first place that is no value.
static BAD_VALUES: [(&str, &str); 11] = [
    ("1.0", "Float { path: Path { steps: [] } }"),
    ("1e2", "Float { path: Path { steps: [] } }"),
    ("-0", "Float { path: Path { steps: [] } }"),
    ("18446744073709551616", "Float { path: Path { steps: [] } }"),
    ("-9223372036854775809", "Float { path: Path { steps: [] } }"),
    (
        "9223372036854775808",
        "IntRange { path: Path { steps: [] } }",
    ),
    (
        "18446744073709551615",
        "IntRange { path: Path { steps: [] } }",
    ),
    (
        "[0,[1,2.5],9223372036854775808]",
        "Float { path: Path { steps: [1, 1] } }",
    ),
    (
        "[9223372036854775808,2.5]",
        "IntRange { path: Path { steps: [0] } }",
    ),
    (
        "{\"b\":1.5,\"a\":[0,9223372036854775808]}",
        "IntRange { path: Path { steps: [0, 1] } }",
    ),
    (
        "{\"c\":1,\"b\":1.5,\"a\":0}",
        "Float { path: Path { steps: [1] } }",
    ),
];

#[test]
fn refused_scripts(rt: HostRuntime) -> Result<(), Fail> {
    for (text, fault) in REFUSED.iter() {
        check_refused(&rt, rt.alloc(), text.as_bytes(), fault)?;
    }
    check_refused(&rt, rt.alloc(), b"[\"\xff\"]", "NotJson")
}

#[test]
fn refused_values(rt: HostRuntime) -> Result<(), Fail> {
    for (json, fault) in BAD_VALUES.iter() {
        check_bad_value(&rt, rt.alloc(), json, fault)?;
    }
    Ok(())
}

/// The first common name in the order of the later list.
#[test]
fn refused_joins(rt: HostRuntime) -> Result<(), Fail> {
    let alloc = rt.alloc();
    let first = script(
        alloc,
        "[{\"reject\":\"a\",\"digest\":\"\"},{\"reject\":\"b\",\"digest\":\"\"}]",
    )?;
    let later = script(
        alloc,
        "[{\"reject\":\"c\",\"digest\":\"\"},{\"reject\":\"b\",\"digest\":\"\"},{\"reject\":\"a\",\"digest\":\"\"}]",
    )?;
    match join(alloc, first.outcomes(), later.outcomes()) {
        Err(JoinFault::AlreadySettled { name }) => assert_eq!(rt; name.as_str(), "b"),
        Err(JoinFault::OutOfMemory) => assert!(rt; false, "no memory"),
        Ok(_all) => assert!(rt; false, "joined"),
    }
    Ok(())
}
