//! Each operator with each pair of kinds.

use super::json_value;
use crate::Val;
use fizz_text::Text;
use std::alloc::Global;
use std::process::Abort;
use std::test::Fail;

/// Two values, `a + b`, and whether `a === b`.
static PAIRS: [(&str, &str, &str, bool); 50] = [
    ("null", "null", "null", true),
    ("null", "true", "null", false),
    ("null", "1", "null", false),
    ("null", "\"x\"", "null", false),
    ("null", "[1]", "null", false),
    ("null", "{\"a\":1}", "null", false),
    ("true", "null", "null", false),
    ("true", "true", "null", true),
    ("true", "1", "null", false),
    ("true", "\"x\"", "null", false),
    ("true", "[1]", "null", false),
    ("true", "{\"a\":1}", "null", false),
    ("1", "null", "null", false),
    ("1", "true", "null", false),
    ("1", "1", "2", true),
    ("1", "\"x\"", "\"1x\"", false),
    ("1", "[1]", "null", false),
    ("1", "{\"a\":1}", "null", false),
    ("\"x\"", "null", "null", false),
    ("\"x\"", "true", "null", false),
    ("\"x\"", "1", "\"x1\"", false),
    ("\"x\"", "\"x\"", "\"xx\"", true),
    ("\"x\"", "[1]", "null", false),
    ("\"x\"", "{\"a\":1}", "null", false),
    ("[1]", "null", "null", false),
    ("[1]", "true", "null", false),
    ("[1]", "1", "null", false),
    ("[1]", "\"x\"", "null", false),
    ("[1]", "[1]", "null", false),
    ("[1]", "{\"a\":1}", "null", false),
    ("{\"a\":1}", "null", "null", false),
    ("{\"a\":1}", "true", "null", false),
    ("{\"a\":1}", "1", "null", false),
    ("{\"a\":1}", "\"x\"", "null", false),
    ("{\"a\":1}", "[1]", "null", false),
    ("{\"a\":1}", "{\"a\":1}", "null", false),
    ("9223372036854775807", "1", "null", false),
    ("9223372036854775806", "1", "9223372036854775807", false),
    ("-9223372036854775808", "-1", "null", false),
    ("-9223372036854775807", "-1", "-9223372036854775808", false),
    ("-9223372036854775808", "9223372036854775807", "-1", false),
    ("0", "0", "0", true),
    ("5", "-5", "0", false),
    ("\"a\"", "-5", "\"a-5\"", false),
    (
        "-9223372036854775808",
        "\"\"",
        "\"-9223372036854775808\"",
        false,
    ),
    ("\"\"", "\"\"", "\"\"", true),
    ("\"1\"", "1", "\"11\"", false),
    ("true", "false", "null", false),
    ("false", "false", "null", true),
    ("\"é\"", "\"ü\"", "\"éü\"", false),
];

/// A value, its truth and its text.
static SINGLE: [(&str, bool, &str); 12] = [
    ("null", false, ""),
    ("true", true, ""),
    ("false", false, ""),
    ("0", false, "0"),
    ("-1", true, "-1"),
    ("1", true, "1"),
    ("\"\"", false, ""),
    ("\"0\"", true, "0"),
    ("\" \"", true, " "),
    ("[]", true, ""),
    ("{}", true, ""),
    ("-9223372036854775808", true, "-9223372036854775808"),
];

/// A value, a name, and the member of that name.
static MEMBERS: [(&str, &str, &str); 12] = [
    ("{\"a\":1,\"b\":\"x\"}", "a", "1"),
    ("{\"a\":1,\"b\":\"x\"}", "b", "\"x\""),
    ("{\"a\":1}", "c", "null"),
    ("{\"length\":7}", "length", "7"),
    ("{}", "length", "null"),
    ("[]", "length", "0"),
    ("[1,2,3]", "length", "3"),
    ("[1]", "a", "null"),
    ("\"abc\"", "length", "null"),
    ("null", "a", "null"),
    ("5", "a", "null"),
    ("true", "length", "null"),
];

fn check_pair(rt: &impl Abort, alloc: Global, row: &(&str, &str, &str, bool)) -> Result<(), Fail> {
    let first = json_value(alloc, row.0)?;
    let second = json_value(alloc, row.1)?;
    let wanted = json_value(alloc, row.2)?;
    let a = Val::given(&first);
    let b = Val::given(&second);
    let sum = a.sum(alloc, &b)?;
    assert!(rt; sum.is_same(&Val::given(&wanted)), "{} + {}", row.0, row.1);
    assert!(rt; a.is_same(&b) == row.3, "{} === {}", row.0, row.1);
    Ok(())
}

fn check_single(rt: &impl Abort, alloc: Global, row: &(&str, bool, &str)) -> Result<(), Fail> {
    let value = json_value(alloc, row.0)?;
    let value = Val::given(&value);
    assert!(rt; value.is_true() == row.1, "truth of {}", row.0);
    assert!(rt; value.text(alloc)?.as_str() == row.2, "text of {}", row.0);
    Ok(())
}

fn check_member(rt: &impl Abort, alloc: Global, row: &(&str, &str, &str)) -> Result<(), Fail> {
    let value = json_value(alloc, row.0)?;
    let wanted = json_value(alloc, row.2)?;
    let name = Text::from_bytes(Vec::from_slice(alloc, row.1.as_bytes())?)?;
    let member = Val::given(&value).member(&name);
    assert!(rt; member.is_same(&Val::given(&wanted)), "{}.{}", row.0, row.1);
    Ok(())
}

#[test]
fn operators(rt: HostRuntime) -> Result<(), Fail> {
    for row in PAIRS.iter() {
        check_pair(&rt, rt.alloc(), row)?;
    }
    for row in SINGLE.iter() {
        check_single(&rt, rt.alloc(), row)?;
    }
    for row in MEMBERS.iter() {
        check_member(&rt, rt.alloc(), row)?;
    }
    Ok(())
}

fn long_text(alloc: Global, length: usize) -> Result<Text, Fail> {
    let mut text = Vec::with_capacity(alloc, length)?;
    for _ in 0..length {
        text.push(b'a')?;
    }
    Ok(Text::from_bytes(text)?)
}

/// A text that `+` makes has at most 65,536 bytes; one that is given may have more.
#[test]
fn long_sums(rt: HostRuntime) -> Result<(), Fail> {
    let alloc = rt.alloc();
    let long = long_text(alloc, 65_535)?;
    let one = Text::fixed("b");
    let two = Text::fixed("bc");
    let most = Val::written(&long).sum(alloc, &Val::written(&one))?;
    assert_eq!(rt; most.text(alloc)?.as_bytes().len(), 65_536);
    let empty = Text::fixed("");
    let again = most.share()?.sum(alloc, &Val::written(&empty))?;
    assert!(rt; again.is_same(&most), "the empty text");
    let over = Val::written(&long).sum(alloc, &Val::written(&two))?;
    assert!(rt; over.is_same(&Val::null()), "65,537 bytes");
    Ok(())
}
