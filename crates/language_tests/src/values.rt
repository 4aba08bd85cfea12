//! Expressions with their values. A value is shown by a component: a number as `<b>`, a text as `<q>`, a list as `<ol>`
//! with its items, and all else by its name as `<i>`.

use super::pages::document_of;
use std::alloc::Global;
use std::test::Fail;

/// What shows a value, and `App`, up to the expression.
fn front() -> &'static str {
    "function Show({ x }) { return x === null ? <i>null</i> : x === true ? <i>true</i> : x === false ? <i>false</i> : x + 0 === x ? <b>{x}</b> : x + \"\" === x ? <q>{x}</q> : x.length === null ? <i>record</i> : <ol>{x.map((y) => <li>{y}</li>)}</ol>; }\nfunction App() { const v = use(\"v\"); return <Show x={"
}

/// What stands behind the expression.
const END: &str = "}/>; }\n";

/// What `v` is.
fn script() -> &'static str {
    "[{\"resolve\":\"v\",\"value\":{\"list\":[1],\"three\":[1,2,3],\"nil\":[],\"rec\":{\"k\":\"a\",\"n\":null,\"in\":{\"deep\":7},\"if\":3},\"bare\":{},\"long\":{\"length\":9},\"text\":\"ab\",\"one\":1,\"big\":9223372036854775807,\"small\":-9223372036854775808}}]"
}

type Pair = (
    &'static str,
    &'static str,
    &'static str,
    bool,
    &'static str,
    &'static str,
);

/// Two values, their sum, whether they are the same, and what `&&` and two bars give of them.
static PAIRS: [Pair; 36] = [
    (
        "null",
        "null",
        "<i>null</i>",
        true,
        "<i>null</i>",
        "<i>null</i>",
    ),
    (
        "null",
        "true",
        "<i>null</i>",
        false,
        "<i>null</i>",
        "<i>true</i>",
    ),
    ("null", "1", "<i>null</i>", false, "<i>null</i>", "<b>1</b>"),
    (
        "null",
        "\"x\"",
        "<i>null</i>",
        false,
        "<i>null</i>",
        "<q>x</q>",
    ),
    (
        "null",
        "v.list",
        "<i>null</i>",
        false,
        "<i>null</i>",
        "<ol><li>1</li></ol>",
    ),
    (
        "null",
        "v.rec",
        "<i>null</i>",
        false,
        "<i>null</i>",
        "<i>record</i>",
    ),
    (
        "true",
        "null",
        "<i>null</i>",
        false,
        "<i>null</i>",
        "<i>true</i>",
    ),
    (
        "true",
        "true",
        "<i>null</i>",
        true,
        "<i>true</i>",
        "<i>true</i>",
    ),
    ("true", "1", "<i>null</i>", false, "<b>1</b>", "<i>true</i>"),
    (
        "true",
        "\"x\"",
        "<i>null</i>",
        false,
        "<q>x</q>",
        "<i>true</i>",
    ),
    (
        "true",
        "v.list",
        "<i>null</i>",
        false,
        "<ol><li>1</li></ol>",
        "<i>true</i>",
    ),
    (
        "true",
        "v.rec",
        "<i>null</i>",
        false,
        "<i>record</i>",
        "<i>true</i>",
    ),
    ("1", "null", "<i>null</i>", false, "<i>null</i>", "<b>1</b>"),
    ("1", "true", "<i>null</i>", false, "<i>true</i>", "<b>1</b>"),
    ("1", "1", "<b>2</b>", true, "<b>1</b>", "<b>1</b>"),
    ("1", "\"x\"", "<q>1x</q>", false, "<q>x</q>", "<b>1</b>"),
    (
        "1",
        "v.list",
        "<i>null</i>",
        false,
        "<ol><li>1</li></ol>",
        "<b>1</b>",
    ),
    (
        "1",
        "v.rec",
        "<i>null</i>",
        false,
        "<i>record</i>",
        "<b>1</b>",
    ),
    (
        "\"x\"",
        "null",
        "<i>null</i>",
        false,
        "<i>null</i>",
        "<q>x</q>",
    ),
    (
        "\"x\"",
        "true",
        "<i>null</i>",
        false,
        "<i>true</i>",
        "<q>x</q>",
    ),
    ("\"x\"", "1", "<q>x1</q>", false, "<b>1</b>", "<q>x</q>"),
    ("\"x\"", "\"x\"", "<q>xx</q>", true, "<q>x</q>", "<q>x</q>"),
    (
        "\"x\"",
        "v.list",
        "<i>null</i>",
        false,
        "<ol><li>1</li></ol>",
        "<q>x</q>",
    ),
    (
        "\"x\"",
        "v.rec",
        "<i>null</i>",
        false,
        "<i>record</i>",
        "<q>x</q>",
    ),
    (
        "v.list",
        "null",
        "<i>null</i>",
        false,
        "<i>null</i>",
        "<ol><li>1</li></ol>",
    ),
    (
        "v.list",
        "true",
        "<i>null</i>",
        false,
        "<i>true</i>",
        "<ol><li>1</li></ol>",
    ),
    (
        "v.list",
        "1",
        "<i>null</i>",
        false,
        "<b>1</b>",
        "<ol><li>1</li></ol>",
    ),
    (
        "v.list",
        "\"x\"",
        "<i>null</i>",
        false,
        "<q>x</q>",
        "<ol><li>1</li></ol>",
    ),
    (
        "v.list",
        "v.list",
        "<i>null</i>",
        false,
        "<ol><li>1</li></ol>",
        "<ol><li>1</li></ol>",
    ),
    (
        "v.list",
        "v.rec",
        "<i>null</i>",
        false,
        "<i>record</i>",
        "<ol><li>1</li></ol>",
    ),
    (
        "v.rec",
        "null",
        "<i>null</i>",
        false,
        "<i>null</i>",
        "<i>record</i>",
    ),
    (
        "v.rec",
        "true",
        "<i>null</i>",
        false,
        "<i>true</i>",
        "<i>record</i>",
    ),
    (
        "v.rec",
        "1",
        "<i>null</i>",
        false,
        "<b>1</b>",
        "<i>record</i>",
    ),
    (
        "v.rec",
        "\"x\"",
        "<i>null</i>",
        false,
        "<q>x</q>",
        "<i>record</i>",
    ),
    (
        "v.rec",
        "v.list",
        "<i>null</i>",
        false,
        "<ol><li>1</li></ol>",
        "<i>record</i>",
    ),
    (
        "v.rec",
        "v.rec",
        "<i>null</i>",
        false,
        "<i>record</i>",
        "<i>record</i>",
    ),
];

#[test]
fn operators_of_each_pair_of_kinds(rt: HostRuntime) -> Result<(), Fail> {
    let report = unlike_pairs(rt.alloc(), &PAIRS)?;
    assert!(&rt; report.is_empty(), "{report}");
    Ok(())
}

/// Sums at the ends of 64 bits.
static ENDS: [(&str, &str); 17] = [
    ("9223372036854775807 + 1", "<i>null</i>"),
    ("1 + 9223372036854775807", "<i>null</i>"),
    ("-9223372036854775808 + -1", "<i>null</i>"),
    ("-1 + -9223372036854775808", "<i>null</i>"),
    ("9223372036854775806 + 1", "<b>9223372036854775807</b>"),
    ("-9223372036854775807 + -1", "<b>-9223372036854775808</b>"),
    ("9223372036854775807 + -9223372036854775808", "<b>-1</b>"),
    ("9223372036854775807 + 0", "<b>9223372036854775807</b>"),
    ("9223372036854775807 + 9223372036854775807", "<i>null</i>"),
    ("-9223372036854775808 + -9223372036854775808", "<i>null</i>"),
    ("9223372036854775807 + 1 + -1", "<i>null</i>"),
    ("9223372036854775807 + -1 + 1", "<b>9223372036854775807</b>"),
    ("9223372036854775807 + \"1\"", "<q>92233720368547758071</q>"),
    ("\"\" + -9223372036854775808", "<q>-9223372036854775808</q>"),
    ("v.big + 1", "<i>null</i>"),
    ("v.small + -1", "<i>null</i>"),
    ("5 + -5", "<b>0</b>"),
];

#[test]
fn sums_at_the_ends(rt: HostRuntime) -> Result<(), Fail> {
    let report = differences(rt.alloc(), &ENDS)?;
    assert!(&rt; report.is_empty(), "{report}");
    Ok(())
}

/// The truth of each kind.
static TRUTHS: [(&str, &str); 26] = [
    ("!null", "<i>true</i>"),
    ("!undefined", "<i>true</i>"),
    ("!true", "<i>false</i>"),
    ("!false", "<i>true</i>"),
    ("!0", "<i>true</i>"),
    ("!1", "<i>false</i>"),
    ("!-1", "<i>false</i>"),
    ("!\"\"", "<i>true</i>"),
    ("!\"0\"", "<i>false</i>"),
    ("!\" \"", "<i>false</i>"),
    ("!\"false\"", "<i>false</i>"),
    ("!v.list", "<i>false</i>"),
    ("!v.nil", "<i>false</i>"),
    ("!v.rec", "<i>false</i>"),
    ("!v.bare", "<i>false</i>"),
    ("!v.gone", "<i>true</i>"),
    ("!!0", "<i>false</i>"),
    ("!!\"a\"", "<i>true</i>"),
    ("null ? 1 : 2", "<b>2</b>"),
    ("0 ? 1 : 2", "<b>2</b>"),
    ("\"\" ? 1 : 2", "<b>2</b>"),
    ("false ? 1 : 2", "<b>2</b>"),
    ("v.nil ? 1 : 2", "<b>1</b>"),
    ("v.bare ? 1 : 2", "<b>1</b>"),
    ("\"0\" ? 1 : 2", "<b>1</b>"),
    ("-1 ? 1 : 2", "<b>1</b>"),
];

#[test]
fn truths(rt: HostRuntime) -> Result<(), Fail> {
    let report = differences(rt.alloc(), &TRUTHS)?;
    assert!(&rt; report.is_empty(), "{report}");
    Ok(())
}

/// Members of each kind.
static MEMBERS: [(&str, &str); 24] = [
    ("v.rec.k", "<q>a</q>"),
    ("v.rec.n", "<i>null</i>"),
    ("v.rec.gone", "<i>null</i>"),
    ("v.rec.length", "<i>null</i>"),
    ("v.rec.in.deep", "<b>7</b>"),
    ("v.rec.in.gone.deep", "<i>null</i>"),
    ("v.long.length", "<b>9</b>"),
    ("v.nil.length", "<b>0</b>"),
    ("v.list.length", "<b>1</b>"),
    ("v.three.length", "<b>3</b>"),
    ("v.list.k", "<i>null</i>"),
    ("v.list.map", "<i>null</i>"),
    ("v.text.length", "<i>null</i>"),
    ("\"abc\".length", "<i>null</i>"),
    ("v.text.k", "<i>null</i>"),
    ("v.one.k", "<i>null</i>"),
    ("(5).k", "<i>null</i>"),
    ("null.k", "<i>null</i>"),
    ("undefined.length", "<i>null</i>"),
    ("true.length", "<i>null</i>"),
    ("(1 + 1).length", "<i>null</i>"),
    ("v.three.length + v.list.length", "<b>4</b>"),
    ("v.bare.k", "<i>null</i>"),
    ("v.rec.if", "<b>3</b>"),
];

#[test]
fn members(rt: HostRuntime) -> Result<(), Fail> {
    let report = differences(rt.alloc(), &MEMBERS)?;
    assert!(&rt; report.is_empty(), "{report}");
    Ok(())
}

/// Values that are the same or not.
static SAMES: [(&str, &str); 30] = [
    ("null === undefined", "<i>true</i>"),
    ("undefined === v.gone", "<i>true</i>"),
    ("null !== undefined", "<i>false</i>"),
    ("1 === \"1\"", "<i>false</i>"),
    ("\"1\" === 1", "<i>false</i>"),
    ("0 === false", "<i>false</i>"),
    ("0 === \"\"", "<i>false</i>"),
    ("null === 0", "<i>false</i>"),
    ("null === false", "<i>false</i>"),
    ("true === true", "<i>true</i>"),
    ("true === false", "<i>false</i>"),
    ("1 === 1", "<i>true</i>"),
    ("1 === 2", "<i>false</i>"),
    ("0 === 0", "<i>true</i>"),
    ("\"a\" === \"a\"", "<i>true</i>"),
    ("\"a\" === \"A\"", "<i>false</i>"),
    ("\"\" === \"\"", "<i>true</i>"),
    ("v.list === v.list", "<i>false</i>"),
    ("v.nil === v.nil", "<i>false</i>"),
    ("v.rec === v.rec", "<i>false</i>"),
    ("v.bare === v.bare", "<i>false</i>"),
    ("v.list !== v.list", "<i>true</i>"),
    ("v.rec !== v.rec", "<i>true</i>"),
    ("v.text === \"ab\"", "<i>true</i>"),
    ("v.one === 1", "<i>true</i>"),
    ("\"é\" === \"\\u00e9\"", "<i>true</i>"),
    ("1 + 1 === 2", "<i>true</i>"),
    ("1 === 0 + 1", "<i>true</i>"),
    ("!0 === true", "<i>true</i>"),
    ("\"a\" !== \"b\"", "<i>true</i>"),
];

#[test]
fn same_values(rt: HostRuntime) -> Result<(), Fail> {
    let report = differences(rt.alloc(), &SAMES)?;
    assert!(&rt; report.is_empty(), "{report}");
    Ok(())
}

/// Operators in one another.
static CHAINS: [(&str, &str); 32] = [
    ("1 + 2 + \"a\"", "<q>3a</q>"),
    ("\"a\" + 1 + 2", "<q>a12</q>"),
    ("\"a\" + (1 + 2)", "<q>a3</q>"),
    ("1 + null + 1", "<i>null</i>"),
    ("\"a\" + null + \"b\"", "<i>null</i>"),
    ("\"a\" + (null || \"b\")", "<q>ab</q>"),
    ("null || 0 || \"x\" || \"y\"", "<q>x</q>"),
    ("null || 0 || \"\"", "<q></q>"),
    ("false || undefined", "<i>null</i>"),
    ("1 && 2 && 3", "<b>3</b>"),
    ("1 && 0 && 3", "<b>0</b>"),
    ("\"\" && 1", "<q></q>"),
    ("1 || 0 && 0", "<b>1</b>"),
    ("0 && 1 || 2", "<b>2</b>"),
    ("(1 || 0) && 0", "<b>0</b>"),
    ("1 === 1 && 2", "<b>2</b>"),
    ("!1 + 1", "<i>null</i>"),
    ("!(1 + -1)", "<i>true</i>"),
    ("1 ? 0 ? \"a\" : \"b\" : \"c\"", "<q>b</q>"),
    ("0 ? 1 : 0 ? 2 : 3", "<b>3</b>"),
    ("(1 ? 2 : 3) + 4", "<b>6</b>"),
    ("1 && 0 ? \"a\" : \"b\"", "<q>b</q>"),
    ("\"<\" + \"&>\"", "<q>&lt;&amp;&gt;</q>"),
    ("\"a\" + \"é\"", "<q>aé</q>"),
    ("v.text + v.one", "<q>ab1</q>"),
    ("v.gone || v.text", "<q>ab</q>"),
    ("v.nil || 1", "<ol></ol>"),
    ("v.nil && 1", "<b>1</b>"),
    ("\"\" + \"\"", "<q></q>"),
    ("v.list + \"\"", "<i>null</i>"),
    ("true + \"a\"", "<i>null</i>"),
    ("\"a\" + v.rec.gone", "<i>null</i>"),
];

#[test]
fn chains_of_operators(rt: HostRuntime) -> Result<(), Fail> {
    let report = differences(rt.alloc(), &CHAINS)?;
    assert!(&rt; report.is_empty(), "{report}");
    Ok(())
}

/// A text that `+` makes has at most 65,536 bytes; one that is given may have more. Rows are the length of a given
/// text, an expression, and what is shown behind that text, or in its place.
static LONG: [(usize, &str, &str); 8] = [
    (65_535, "v + \"b\"", "b"),
    (65_536, "v + \"\"", ""),
    (65_535, "v + 1", "1"),
    (65_535, "v + -1", "null"),
    (65_536, "v + 0", "null"),
    (65_535, "v + \"bc\"", "null"),
    (65_535, "v + \"é\"", "null"),
    (65_537, "v + \"\"", "null"),
];

#[test]
fn long_sums(rt: HostRuntime) -> Result<(), Fail> {
    let report = unlike_sums(rt.alloc(), &LONG)?;
    assert!(&rt; report.is_empty(), "{report}");
    Ok(())
}

fn unlike_sums(alloc: Global, rows: &[(usize, &str, &str)]) -> Result<String, Fail> {
    let mut report = String::new(alloc);
    for (length, expression, end) in rows {
        push_sum(alloc, &mut report, *length, expression, end)?;
    }
    Ok(report)
}

fn push_sum(
    alloc: Global,
    report: &mut String,
    length: usize,
    expression: &str,
    end: &str,
) -> Result<(), Fail> {
    let given = "a".repeat(alloc, length)?;
    let found = value_of_given(alloc, expression, given.as_str())?;
    let wanted = wanted_sum(alloc, given.as_str(), end)?;
    if found.as_str() != wanted.as_str() {
        let line = format!(in alloc; "{expression} of {length} bytes\n")?;
        report.push_str(line.as_str())?;
    }
    Ok(())
}

fn value_of_given(alloc: Global, expression: &str, given: &str) -> Result<String, Fail> {
    let script = format!(in alloc; "[{{\"resolve\":\"v\",\"value\":\"{given}\"}}]")?;
    shown_value(alloc, expression, script.as_str())
}

fn wanted_sum(alloc: Global, given: &str, end: &str) -> Result<String, Fail> {
    if end == "null" {
        return Ok(String::from_str(alloc, "<i>null</i>")?);
    }
    Ok(format!(in alloc; "<q>{given}{end}</q>")?)
}

/// A line for each expression with another value.
fn differences(alloc: Global, rows: &[(&str, &str)]) -> Result<String, Fail> {
    let mut report = String::new(alloc);
    for (expression, shown) in rows {
        push_difference(alloc, &mut report, expression, shown)?;
    }
    Ok(report)
}

/// A line for each pair of values and each operator that gives something else of them.
fn unlike_pairs(alloc: Global, rows: &[Pair]) -> Result<String, Fail> {
    let mut report = String::new(alloc);
    for (first, second, sum, same, both, either) in rows {
        push_pair(alloc, &mut report, first, "+", second, sum)?;
        push_pair(alloc, &mut report, first, "===", second, truth(*same))?;
        push_pair(alloc, &mut report, first, "!==", second, truth(!*same))?;
        push_pair(alloc, &mut report, first, "&&", second, both)?;
        push_pair(alloc, &mut report, first, "||", second, either)?;
    }
    Ok(report)
}

fn truth(value: bool) -> &'static str {
    if value { "<i>true</i>" } else { "<i>false</i>" }
}

fn push_pair(
    alloc: Global,
    report: &mut String,
    first: &str,
    operator: &str,
    second: &str,
    shown: &str,
) -> Result<(), Fail> {
    let expression = format!(in alloc; "{first} {operator} {second}")?;
    push_difference(alloc, report, expression.as_str(), shown)
}

fn push_difference(
    alloc: Global,
    report: &mut String,
    expression: &str,
    shown: &str,
) -> Result<(), Fail> {
    let found = shown_value(alloc, expression, script())?;
    if found.as_str() != shown {
        let line = format!(in alloc; "{found} for {shown}: {expression}\n")?;
        report.push_str(line.as_str())?;
    }
    Ok(())
}

fn shown_value(alloc: Global, expression: &str, script: &str) -> Result<String, Fail> {
    let front = front();
    let text = format!(in alloc; "{front}{expression}{END}")?;
    document_of(alloc, text.as_str(), script)
}
