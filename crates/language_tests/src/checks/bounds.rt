//! Files at the bounds, and beyond them. Texts are built of parts.

use super::answers::push_difference;
use std::alloc::{AllocError, Global};
use std::test::Fail;

/// How many components stand before `App`, `App`, and the answer.
static COUNTS: [(usize, &str, &str); 8] = [
    (999, "function App() { return 1; }", "accepted"),
    (999, "function App() { return <A998/>; }", "accepted"),
    (999, "function App() { return ^x; }", "UnknownName"),
    (999, "function App({ a }) { return a; }", "NoApp"),
    (
        1_000,
        "function App() { return 1; }",
        "TooManyComponents { count: 1001 }",
    ),
    (
        1_000,
        "function App() { return x; }",
        "TooManyComponents { count: 1001 }",
    ),
    (
        1_001,
        "function A0() { return <A/>; }",
        "TooManyComponents { count: 1002 }",
    ),
    (2_000, "", "TooManyComponents { count: 2000 }"),
];

#[test]
fn numbers_of_components(rt: HostRuntime) -> Result<(), Fail> {
    let report = miscounted(rt.alloc(), &COUNTS)?;
    assert!(&rt; report.is_empty(), "{report}");
    Ok(())
}

fn miscounted(alloc: Global, rows: &[(usize, &str, &str)]) -> Result<String, AllocError> {
    let mut report = String::new(alloc);
    for (count, app, answer) in rows {
        let mut text = String::new(alloc);
        for number in 0..*count {
            let component = format!(in alloc; "function A{number}() {{ return 1; }} ")?;
            text.push_str(component.as_str())?;
        }
        text.push_str(app)?;
        push_difference(alloc, &mut report, text.as_str(), answer)?;
    }
    Ok(report)
}

/// How many components stand before `App` in a chain, in which each but the first, `A0`, returns the one before it. The
/// last is as deep as they are many.
static CHAINS: [(usize, &str, &str); 11] = [
    (255, "function App() { return <A254/>; }", "accepted"),
    (
        255,
        "function App() { return <A254 key=\"a\"/>; }",
        "accepted",
    ),
    (254, "function App() { return <p><A253/></p>; }", "accepted"),
    (
        254,
        "function App() { return <p title=\"a\"><A253/></p>; }",
        "accepted",
    ),
    (256, "function App() { return 1; }", "accepted"),
    (
        256,
        "function App() { return <A255/>; }",
        "TooDeep { depth: 257 }",
    ),
    (
        255,
        "function App() { return <p><A254/></p>; }",
        "TooDeep { depth: 257 }",
    ),
    (
        255,
        "function App() { return [1, <i/>, <p><A254/></p>]; }",
        "TooDeep { depth: 258 }",
    ),
    (
        999,
        "function App() { return <A998/>; }",
        "TooDeep { depth: 1000 }",
    ),
    (
        256,
        "function App() { return [<A255/>, ^x]; }",
        "UnknownName",
    ),
    (256, "function App({ a }) { return <A255/>; }", "NoApp"),
];

#[test]
fn chains_of_components(rt: HostRuntime) -> Result<(), Fail> {
    let report = mischained(rt.alloc(), &CHAINS)?;
    assert!(&rt; report.is_empty(), "{report}");
    Ok(())
}

fn mischained(alloc: Global, rows: &[(usize, &str, &str)]) -> Result<String, AllocError> {
    let mut report = String::new(alloc);
    for (count, app, answer) in rows {
        let mut text = String::from_str(alloc, "function A0() { return 1; } ")?;
        for number in 1..*count {
            let before = number - 1;
            let component = format!(in alloc; "function A{number}() {{ return <A{before}/>; }} ")?;
            text.push_str(component.as_str())?;
        }
        text.push_str(app)?;
        push_difference(alloc, &mut report, text.as_str(), answer)?;
    }
    Ok(report)
}

/// What stands around a node, the node, how often `App` has the first around `<B/>`, and the answer. `B` has it 190
/// times around the node.
type Nest = (
    &'static str,
    &'static str,
    &'static str,
    usize,
    &'static str,
);

/// A node of depth 1 makes `B` 191 deep, so that `App` is 192 deeper than it nests; the last ones are of depth 2.
static NESTS: [Nest; 18] = [
    ("<p>", "<br/>", "</p>", 64, "accepted"),
    ("<p>", "<br/>", "</p>", 65, "TooDeep { depth: 257 }"),
    ("<p>", "<br/>", "</p>", 190, "TooDeep { depth: 382 }"),
    ("<>", "<br/>", "</>", 64, "accepted"),
    ("<>", "<br/>", "</>", 65, "TooDeep { depth: 257 }"),
    ("[", "<br/>", "]", 64, "accepted"),
    ("[", "<br/>", "]", 65, "TooDeep { depth: 257 }"),
    ("1 ? ", "<br/>", " : 2", 64, "accepted"),
    ("1 ? ", "<br/>", " : 2", 65, "TooDeep { depth: 257 }"),
    ("1 && (", "<br/>", ")", 64, "accepted"),
    ("1 || (", "<br/>", ")", 65, "TooDeep { depth: 257 }"),
    ("(", "<br/>", ")", 190, "accepted"),
    ("<Suspense>", "<br/>", "</Suspense>", 64, "accepted"),
    (
        "<Suspense>",
        "<br/>",
        "</Suspense>",
        65,
        "TooDeep { depth: 257 }",
    ),
    ("<p>", "<br title=\"a\"/>", "</p>", 63, "accepted"),
    (
        "<p>",
        "<br title=\"a\"/>",
        "</p>",
        64,
        "TooDeep { depth: 257 }",
    ),
    (
        "<p>",
        "<Suspense fallback={<br/>}/>",
        "</p>",
        64,
        "TooDeep { depth: 257 }",
    ),
    (
        "<p>",
        "{\"a\".map((x) => <br/>)}",
        "</p>",
        64,
        "TooDeep { depth: 257 }",
    ),
];

#[test]
fn nested_nodes(rt: HostRuntime) -> Result<(), Fail> {
    let report = misnested(rt.alloc(), &NESTS)?;
    assert!(&rt; report.is_empty(), "{report}");
    Ok(())
}

fn misnested(alloc: Global, nests: &[Nest]) -> Result<String, AllocError> {
    let mut report = String::new(alloc);
    for (front, node, back, times, answer) in nests {
        let within = nested(alloc, front, node, back, 190)?;
        let around = nested(alloc, front, "<B/>", back, *times)?;
        let text = format!(in alloc;
            "function B() {{ return {within}; }} function App() {{ return {around}; }}"
        )?;
        push_difference(alloc, &mut report, text.as_str(), answer)?;
    }
    Ok(report)
}

fn nested(
    alloc: Global,
    front: &str,
    node: &str,
    back: &str,
    times: usize,
) -> Result<String, AllocError> {
    let fronts = front.repeat(alloc, times)?;
    let backs = back.repeat(alloc, times)?;
    format!(in alloc; "{fronts}{node}{backs}")
}
