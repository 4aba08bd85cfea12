//! Names in expressions.

use super::answers::{differences, refusals};
use std::test::Fail;

/// Names that are no property, no constant before them and no variable of a map around them.
static UNKNOWN: [(&str, &str); 23] = [
    ("function App() { return ^x; }", "UnknownName"),
    ("function App() { return <p>{^x}</p>; }", "UnknownName"),
    ("function App() { return <p title={^x}/>; }", "UnknownName"),
    ("function App() { const a = ^a; return a; }", "UnknownName"),
    (
        "function App() { const a = use(\"r\" + ^a); return a; }",
        "UnknownName",
    ),
    (
        "function App() { const a = ^b; const b = 1; return a; }",
        "UnknownName",
    ),
    (
        "function A({ a }) { return a; } function App() { return ^a; }",
        "UnknownName",
    ),
    (
        "function A() { const a = 1; return a; } function App() { return ^a; }",
        "UnknownName",
    ),
    (
        "function A() { const xs = 1; return xs.map((x) => x); } function App() { return ^x; }",
        "UnknownName",
    ),
    (
        "function App() { return ^xs.map((x) => x); }",
        "UnknownName",
    ),
    ("function App() { return ^x.map((x) => x); }", "UnknownName"),
    (
        "function App() { const xs = 1; return [xs.map((x) => x), ^x]; }",
        "UnknownName",
    ),
    (
        "function App() { const xs = 1; return xs.map((x, i) => ^j); }",
        "UnknownName",
    ),
    (
        "function App() { const a = use(^r); return a; }",
        "UnknownName",
    ),
    (
        "function App() { if (^x) throw 1; return 1; }",
        "UnknownName",
    ),
    (
        "function App() { if (1) throw ^x; return 1; }",
        "UnknownName",
    ),
    (
        "function A() { return 1; } function App() { return ^A; }",
        "UnknownName",
    ),
    ("function App() { return ^App; }", "UnknownName"),
    ("function App() { return ^x.y.z; }", "UnknownName"),
    ("function App() { return 1 ? 2 : !^x; }", "UnknownName"),
    (
        "function App() { return <Suspense fallback={<i>{^x}</i>}/>; }",
        "UnknownName",
    ),
    (
        "function A({ n }) { return n; } function App() { return <A n={^n}/>; }",
        "UnknownName",
    ),
    (
        "function App() { return 1 && <p>{0 || ^x}</p>; }",
        "UnknownName",
    ),
];

#[test]
fn names_out_of_scope(rt: HostRuntime) -> Result<(), Fail> {
    let report = differences(rt.alloc(), &UNKNOWN)?;
    assert!(&rt; report.is_empty(), "{report}");
    Ok(())
}

/// Names in scope.
static KNOWN: [&str; 14] = [
    "function App() { const x = 1; return x; }",
    "function App() { const a = 1; const b = a; return b; }",
    "function A({ a }) { const b = a; return b; } function App() { return <A a={1}/>; }",
    "function A({ a }) { return a; } function App() { const a = 1; return a; }",
    "function App() { const xs = 1; return [xs.map((x) => x), xs.map((x) => x)]; }",
    "function App() { const xs = 1; return xs.map((x, i) => [x, i, xs]); }",
    "function App() { const xs = 1; return xs.map((x) => x.map((y) => [x, y])); }",
    "function App() { const xs = 1; return xs.map((x) => <p title={x}/>); }",
    "function App() { const a = use(\"r\"); if (a) throw a; return a; }",
    "function A() { return 1; } function App() { const A = 1; return A; }",
    "function App() { const App = 1; return App; }",
    "function App() { const Suspense = 1; return <Suspense>{Suspense}</Suspense>; }",
    "function App() { const a = 1; return a.b.c; }",
    "function App() { const a = use(\"r\"); return <Suspense fallback={<i>{a}</i>}/>; }",
];

#[test]
fn names_in_scope(rt: HostRuntime) -> Result<(), Fail> {
    let report = refusals(rt.alloc(), &KNOWN)?;
    assert!(&rt; report.is_empty(), "{report}");
    Ok(())
}
