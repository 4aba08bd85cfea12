//! Definitions.

use super::answers::{differences, refusals};
use std::test::Fail;

/// Components, names in scope and attributes that are there already.
static TWICE: [(&str, &str); 21] = [
    (
        "function A() { return 1; } function ^A() { return 2; } function App() { return 1; }",
        "TwiceDefined",
    ),
    (
        "function App() { return 1; } function ^App() { return 2; }",
        "TwiceDefined",
    ),
    (
        "function ^Suspense() { return 1; } function App() { return 1; }",
        "TwiceDefined",
    ),
    (
        "function A() { return 1; } function B() { return 1; } function ^A() { return 3; } function App() { return 1; }",
        "TwiceDefined",
    ),
    (
        "function A({ a, ^a }) { return a; } function App() { return 1; }",
        "TwiceDefined",
    ),
    (
        "function A({ a }) { const ^a = 1; return a; } function App() { return 1; }",
        "TwiceDefined",
    ),
    (
        "function App() { const a = 1; const ^a = 2; return a; }",
        "TwiceDefined",
    ),
    (
        "function App() { const a = 1; const ^a = use(\"r\"); return a; }",
        "TwiceDefined",
    ),
    (
        "function App() { const a = use(\"r\"); const ^a = a; return a; }",
        "TwiceDefined",
    ),
    (
        "function App() { const xs = 1; return xs.map((^xs) => xs); }",
        "TwiceDefined",
    ),
    (
        "function App() { const xs = 1; return xs.map((x, ^x) => x); }",
        "TwiceDefined",
    ),
    (
        "function App() { const xs = 1; return xs.map((x) => xs.map((^x) => x)); }",
        "TwiceDefined",
    ),
    (
        "function App() { const xs = 1; return xs.map((x, i) => xs.map((y, ^i) => y)); }",
        "TwiceDefined",
    ),
    (
        "function A({ x }) { return x.map((^x) => x); } function App() { return 1; }",
        "TwiceDefined",
    ),
    (
        "function App() { return <p title=\"a\" ^title=\"b\"/>; }",
        "TwiceDefined",
    ),
    (
        "function App() { return <p hidden lang=\"a\" ^hidden/>; }",
        "TwiceDefined",
    ),
    (
        "function App() { return <p key=\"a\" ^key=\"b\"/>; }",
        "TwiceDefined",
    ),
    (
        "function App() { return <p data-a=\"a\" data-b=\"b\" ^data-a=\"c\"/>; }",
        "TwiceDefined",
    ),
    (
        "function A({ a }) { return a; } function App() { return <A a={1} ^a={2}/>; }",
        "TwiceDefined",
    ),
    (
        "function App() { return <Suspense fallback={1} ^fallback={2}/>; }",
        "TwiceDefined",
    ),
    (
        "function App() { return <Suspense key={1} ^key={2}/>; }",
        "TwiceDefined",
    ),
];

#[test]
fn names_defined_twice(rt: HostRuntime) -> Result<(), Fail> {
    let report = differences(rt.alloc(), &TWICE)?;
    assert!(&rt; report.is_empty(), "{report}");
    Ok(())
}

/// Equal names that don't meet.
static ONCE: [&str; 9] = [
    "function A() { return 1; } function B() { return 1; } function App() { return 1; }",
    "function A({ a }) { return a; } function B({ a }) { return a; } function App() { return 1; }",
    "function A({ a, A }) { return a; } function App() { return 1; }",
    "function A() { const a = 1; return a; } function App() { const a = 2; return a; }",
    "function App() { const xs = 1; return xs.map((x, i) => [xs.map((y) => y), xs.map((y, j) => j)]); }",
    "function App() { return <p title=\"a\"><p title=\"b\"/></p>; }",
    "function App() { return [<p title=\"a\"/>, <p title=\"b\"/>]; }",
    "function App() { return <p data-a=\"a\" data-b=\"b\" aria-a=\"c\"/>; }",
    "function suspense() { return 1; } function app() { return 2; } function App() { return 1; }",
];

#[test]
fn names_defined_once(rt: HostRuntime) -> Result<(), Fail> {
    let report = refusals(rt.alloc(), &ONCE)?;
    assert!(&rt; report.is_empty(), "{report}");
    Ok(())
}

/// Files without an `App` that has no properties.
static NO_APP: [(&str, &str); 8] = [
    ("", "NoApp"),
    ("function A() { return 1; }", "NoApp"),
    ("function app() { return 1; }", "NoApp"),
    ("function APP() { return 1; }", "NoApp"),
    ("function App({ a }) { return a; }", "NoApp"),
    (
        "function App({ a }) { return 1; } function A() { return 1; }",
        "NoApp",
    ),
    ("function A() { const App = 1; return App; }", "NoApp"),
    ("// function App() { return 1; }\n", "NoApp"),
];

#[test]
fn files_without_app(rt: HostRuntime) -> Result<(), Fail> {
    let report = differences(rt.alloc(), &NO_APP)?;
    assert!(&rt; report.is_empty(), "{report}");
    Ok(())
}

/// Files with an `App`.
static APPS: [&str; 4] = [
    "function App() { return 1; }",
    "function App() { return 1; } function A() { return 1; }",
    "function A() { return 1; } function App() { return 1; }",
    "// App\nfunction App() { return null; }\n",
];

#[test]
fn files_with_an_app(rt: HostRuntime) -> Result<(), Fail> {
    let report = refusals(rt.alloc(), &APPS)?;
    assert!(&rt; report.is_empty(), "{report}");
    Ok(())
}
