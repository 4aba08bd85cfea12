//! Pages whose components wait and fail: the final document, or the failures of the shell, each behind a `!`.

use super::pages::document_of;
use std::alloc::Global;
use std::test::Fail;

/// What stands before a row's first text, and behind it.
type Frame = (&'static str, &'static str);

/// The row's first text is what a component does before it returns.
fn statements() -> Frame {
    (
        "function Body() { ",
        "return <p>1</p>; } function App() { return <Body/>; }",
    )
}

/// It is what `App` returns. `F` fails, and `W` waits for `a`.
fn nodes() -> Frame {
    (
        "function F({ d }) { if (1) throw d; return 1; } function W() { const a = use(\"a\"); return <i>{a}</i>; } function App() { return ",
        "; }",
    )
}

/// Two resources in one component: the first that is used decides, in whatever order they settle.
static USES: [(&str, &str, &str); 14] = [
    (
        "const a = use(\"a\"); const b = use(\"b\"); ",
        "[{\"reject\":\"a\",\"digest\":\"e1\"}]",
        "!e1",
    ),
    (
        "const b = use(\"b\"); const a = use(\"a\"); ",
        "[{\"reject\":\"a\",\"digest\":\"e1\"}]",
        "!unsettled",
    ),
    (
        "const a = use(\"a\"); const b = use(\"b\"); ",
        "[{\"reject\":\"b\",\"digest\":\"e2\"}]",
        "!unsettled",
    ),
    (
        "const b = use(\"b\"); const a = use(\"a\"); ",
        "[{\"reject\":\"b\",\"digest\":\"e2\"}]",
        "!e2",
    ),
    (
        "const a = use(\"a\"); const b = use(\"b\"); ",
        "[{\"resolve\":\"a\",\"value\":1},{\"reject\":\"b\",\"digest\":\"e2\"}]",
        "!e2",
    ),
    (
        "const a = use(\"a\"); const b = use(\"b\"); ",
        "[{\"reject\":\"b\",\"digest\":\"e2\"},{\"resolve\":\"a\",\"value\":1}]",
        "!e2",
    ),
    (
        "const a = use(\"a\"); const b = use(\"b\"); ",
        "[{\"resolve\":\"a\",\"value\":1}]",
        "!unsettled",
    ),
    (
        "const a = use(\"a\"); const b = use(\"b\"); ",
        "[{\"resolve\":\"b\",\"value\":1}]",
        "!unsettled",
    ),
    (
        "const a = use(\"a\"); const b = use(\"b\"); ",
        "[{\"resolve\":\"a\",\"value\":1},{\"resolve\":\"b\",\"value\":1}]",
        "<p>1</p>",
    ),
    (
        "const a = use(\"a\"); const b = use(\"b\"); ",
        "[{\"reject\":\"a\",\"digest\":\"e1\"},{\"reject\":\"b\",\"digest\":\"e2\"}]",
        "!e1",
    ),
    (
        "const a = use(\"a\"); const b = use(\"b\"); ",
        "[{\"reject\":\"b\",\"digest\":\"e2\"},{\"reject\":\"a\",\"digest\":\"e1\"}]",
        "!e1",
    ),
    (
        "const b = use(\"b\"); const a = use(\"a\"); ",
        "[{\"reject\":\"a\",\"digest\":\"e1\"},{\"reject\":\"b\",\"digest\":\"e2\"}]",
        "!e2",
    ),
    (
        "const a = use(\"a\"); const b = use(\"b\"); ",
        "[]",
        "!unsettled",
    ),
    (
        "const a = use(\"a\"); const c = use(\"a\"); ",
        "[{\"reject\":\"a\",\"digest\":\"e1\"}]",
        "!e1",
    ),
];

#[test]
fn the_first_use_decides(rt: HostRuntime) -> Result<(), Fail> {
    let report = differences(rt.alloc(), &USES, statements())?;
    assert!(&rt; report.is_empty(), "{report}");
    Ok(())
}

/// A throw before a use and behind it, with its digest.
static THROWS: [(&str, &str, &str); 17] = [
    ("if (1) throw \"t\"; const a = use(\"a\"); ", "[]", "!t"),
    (
        "if (1) throw \"t\"; const a = use(\"a\"); ",
        "[{\"reject\":\"a\",\"digest\":\"e1\"}]",
        "!t",
    ),
    (
        "if (1) throw \"t\"; const a = use(\"a\"); ",
        "[{\"resolve\":\"a\",\"value\":1}]",
        "!t",
    ),
    (
        "const a = use(\"a\"); if (1) throw \"t\"; ",
        "[]",
        "!unsettled",
    ),
    (
        "const a = use(\"a\"); if (1) throw \"t\"; ",
        "[{\"reject\":\"a\",\"digest\":\"e1\"}]",
        "!e1",
    ),
    (
        "const a = use(\"a\"); if (1) throw \"t\"; ",
        "[{\"resolve\":\"a\",\"value\":1}]",
        "!t",
    ),
    (
        "if (0) throw \"t\"; const a = use(\"a\"); ",
        "[{\"reject\":\"a\",\"digest\":\"e1\"}]",
        "!e1",
    ),
    (
        "if (0) throw \"t\"; const a = use(\"a\"); ",
        "[{\"resolve\":\"a\",\"value\":1}]",
        "<p>1</p>",
    ),
    (
        "const a = use(\"a\"); if (a === 0) throw \"z\"; ",
        "[{\"resolve\":\"a\",\"value\":0}]",
        "!z",
    ),
    (
        "const a = use(\"a\"); if (a === 0) throw \"z\"; ",
        "[{\"resolve\":\"a\",\"value\":1}]",
        "<p>1</p>",
    ),
    (
        "if (0) throw \"x\"; if (1) throw \"y\"; if (1) throw \"z\"; ",
        "[]",
        "!y",
    ),
    (
        "if (\"\") throw \"x\"; if (null) throw \"y\"; if (\" \") throw \"z\"; ",
        "[]",
        "!z",
    ),
    ("if (1) throw 7; ", "[]", "!7"),
    ("if (1) throw null; ", "[]", "!"),
    ("if (1) throw true; ", "[]", "!"),
    ("if (1) throw \"a\" + 1; ", "[]", "!a1"),
    (
        "const a = use(\"a\"); if (a) throw a; ",
        "[{\"resolve\":\"a\",\"value\":[1]}]",
        "!",
    ),
];

#[test]
fn throws_and_uses(rt: HostRuntime) -> Result<(), Fail> {
    let report = differences(rt.alloc(), &THROWS, statements())?;
    assert!(&rt; report.is_empty(), "{report}");
    Ok(())
}

/// Names of resources that are computed.
static NAMES: [(&str, &str, &str); 8] = [
    (
        "const a = use(5); ",
        "[{\"reject\":\"5\",\"digest\":\"five\"}]",
        "!five",
    ),
    (
        "const a = use(\"a\" + 1); ",
        "[{\"reject\":\"a1\",\"digest\":\"joined\"}]",
        "!joined",
    ),
    (
        "const a = use(null); ",
        "[{\"reject\":\"\",\"digest\":\"no name\"}]",
        "!no name",
    ),
    (
        "const a = use(true); ",
        "[{\"reject\":\"true\",\"digest\":\"x\"}]",
        "!unsettled",
    ),
    (
        "const a = use(\"A\"); ",
        "[{\"reject\":\"a\",\"digest\":\"e1\"}]",
        "!unsettled",
    ),
    (
        "const a = use(\"a\"); const b = use(a); ",
        "[{\"resolve\":\"a\",\"value\":\"b\"},{\"reject\":\"b\",\"digest\":\"e2\"}]",
        "!e2",
    ),
    (
        "const a = use(\"a\"); const b = use(a); ",
        "[{\"resolve\":\"a\",\"value\":{\"b\":1}},{\"reject\":\"\",\"digest\":\"no name\"}]",
        "!no name",
    ),
    (
        "const a = use(\"a\"); const b = use(a.next); ",
        "[{\"resolve\":\"a\",\"value\":{\"next\":\"b\"}},{\"resolve\":\"b\",\"value\":1}]",
        "<p>1</p>",
    ),
];

#[test]
fn names_of_resources(rt: HostRuntime) -> Result<(), Fail> {
    let report = differences(rt.alloc(), &NAMES, statements())?;
    assert!(&rt; report.is_empty(), "{report}");
    Ok(())
}

/// Failures in and out of boundaries.
static PAGES: [(&str, &str, &str); 19] = [
    ("<p><F d=\"x\"/><W/></p>", "[]", "!x!unsettled"),
    ("<p><W/><F d=\"x\"/></p>", "[]", "!unsettled!x"),
    ("<p><F d=\"x\"/><F d=\"y\"/></p>", "[]", "!x!y"),
    (
        "<p><F d=\"x\"/><W/></p>",
        "[{\"resolve\":\"a\",\"value\":1}]",
        "!x",
    ),
    (
        "<p>a<W/>b</p>",
        "[{\"resolve\":\"a\",\"value\":1}]",
        "<p>a<i>1</i>b</p>",
    ),
    (
        "<><Suspense fallback={<b>w</b>}><F d=\"x\"/></Suspense><p>y</p></>",
        "[]",
        "<b>w</b><p>y</p>",
    ),
    (
        "<><Suspense fallback={<b>w</b>}><W/></Suspense><F d=\"x\"/></>",
        "[{\"resolve\":\"a\",\"value\":1}]",
        "!x",
    ),
    (
        "<><Suspense fallback={<b>w</b>}><F d=\"x\"/></Suspense><F d=\"y\"/></>",
        "[]",
        "!y",
    ),
    (
        "<Suspense fallback=\"outer\"><p>a<Suspense fallback=\"inner\"><F d=\"x\"/></Suspense>b</p></Suspense>",
        "[]",
        "<p>a<!-- -->inner<!-- -->b</p>",
    ),
    (
        "<Suspense fallback=\"outer\"><F d=\"x\"/><Suspense fallback=\"inner\"><F d=\"y\"/></Suspense></Suspense>",
        "[]",
        "outer",
    ),
    (
        "<Suspense fallback=\"outer\"><Suspense fallback=\"inner\"><W/></Suspense></Suspense>",
        "[{\"reject\":\"a\",\"digest\":\"e1\"}]",
        "inner",
    ),
    (
        "<Suspense fallback=\"outer\"><Suspense fallback=\"inner\"><W/></Suspense></Suspense>",
        "[{\"resolve\":\"a\",\"value\":1}]",
        "<i>1</i>",
    ),
    (
        "<p>a<Suspense><F d=\"x\"/></Suspense>b</p>",
        "[]",
        "<p>a<!-- -->b</p>",
    ),
    (
        "<p>a<Suspense fallback=\"w\">c</Suspense>b</p>",
        "[]",
        "<p>a<!-- -->c<!-- -->b</p>",
    ),
    (
        "<Suspense fallback=\"w\"><p>a<i>b<F d=\"x\"/></i></p></Suspense>",
        "[]",
        "w",
    ),
    ("<Suspense fallback=\"w\"></Suspense>", "[]", ""),
    ("1 ? <p>a</p> : <F d=\"x\"/>", "[]", "<p>a</p>"),
    ("0 && <F d=\"x\"/>", "[]", "0"),
    ("\"a\" || <F d=\"x\"/>", "[]", "a"),
];

#[test]
fn failures_in_pages(rt: HostRuntime) -> Result<(), Fail> {
    let report = differences(rt.alloc(), &PAGES, nodes())?;
    assert!(&rt; report.is_empty(), "{report}");
    Ok(())
}

/// A line for each page that comes to something else.
fn differences(alloc: Global, rows: &[(&str, &str, &str)], frame: Frame) -> Result<String, Fail> {
    let mut report = String::new(alloc);
    let (front, back) = frame;
    for (middle, script, shown) in rows {
        let text = format!(in alloc; "{front}{middle}{back}")?;
        let found = document_of(alloc, text.as_str(), script)?;
        if found.as_str() != *shown {
            let line = format!(in alloc; "{found} for {shown}: {middle} of {script}\n")?;
            report.push_str(line.as_str())?;
        }
    }
    Ok(report)
}
