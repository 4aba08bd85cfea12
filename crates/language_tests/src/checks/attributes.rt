//! Attributes.

use super::answers::{differences, refusals};
use std::test::Fail;

/// Attributes that are in no table, and of no component.
static UNKNOWN: [(&str, &str); 18] = [
    (
        "function App() { return <p ^class=\"a\"/>; }",
        "UnknownAttribute",
    ),
    (
        "function App() { return <p ^onClick={1}/>; }",
        "UnknownAttribute",
    ),
    (
        "function App() { return <p ^for=\"a\"/>; }",
        "UnknownAttribute",
    ),
    (
        "function App() { return <p ^Title=\"a\"/>; }",
        "UnknownAttribute",
    ),
    (
        "function App() { return <p ^style=\"a\"/>; }",
        "UnknownAttribute",
    ),
    (
        "function App() { return <p ^children=\"a\"/>; }",
        "UnknownAttribute",
    ),
    (
        "function App() { return <p ^fallback=\"a\"/>; }",
        "UnknownAttribute",
    ),
    (
        "function App() { return <p ^data-dgst=\"a\"/>; }",
        "UnknownAttribute",
    ),
    (
        "function App() { return <p ^data-=\"a\"/>; }",
        "UnknownAttribute",
    ),
    (
        "function App() { return <p ^data-A=\"a\"/>; }",
        "UnknownAttribute",
    ),
    ("function App() { return <p ^aria-/>; }", "UnknownAttribute"),
    (
        "function App() { return <p data-a-1=\"a\" ^data_a=\"a\"/>; }",
        "UnknownAttribute",
    ),
    (
        "function App() { return <br lang=\"a\" ^hrefs=\"a\"/>; }",
        "UnknownAttribute",
    ),
    (
        "function App() { return <Suspense ^className=\"a\"/>; }",
        "UnknownAttribute",
    ),
    (
        "function App() { return <Suspense fallback={1} ^id=\"a\"/>; }",
        "UnknownAttribute",
    ),
    (
        "function A({ a }) { return a; } function App() { return <A ^b={1}/>; }",
        "UnknownAttribute",
    ),
    (
        "function A() { return 1; } function App() { return <A ^className=\"a\"/>; }",
        "UnknownAttribute",
    ),
    (
        "function A({ fallback }) { return fallback; } function App() { return <A ^fallbacks={1}/>; }",
        "UnknownAttribute",
    ),
];

#[test]
fn unknown_attributes(rt: HostRuntime) -> Result<(), Fail> {
    let report = differences(rt.alloc(), &UNKNOWN)?;
    assert!(&rt; report.is_empty(), "{report}");
    Ok(())
}

/// Attributes of elements, of components and of boundaries.
static KNOWN: [&str; 10] = [
    "function App() { return <p className=\"a\" htmlFor=\"b\" key=\"c\" data-a=\"d\" aria-b-2=\"e\" hidden/>; }",
    "function App() { return <p data--=\"a\"/>; }",
    "function App() { return <br id=\"a\" title=\"b\"/>; }",
    "function App() { return <a href=\"a\" target=\"b\" rel=\"c\" cite=\"d\" dir=\"e\" role=\"f\" open disabled/>; }",
    "function A({ a }) { return a; } function App() { return <A key={1} a={2}/>; }",
    "function A() { return 1; } function App() { return <A key=\"a\"/>; }",
    "function A({ className }) { return className; } function App() { return <A className=\"a\"/>; }",
    "function A({ key }) { return key; } function App() { return <A key={1}/>; }",
    "function A({ a, b }) { return a; } function App() { return <A b={1}/>; }",
    "function App() { return <Suspense key={1} fallback={1}/>; }",
];

#[test]
fn known_attributes(rt: HostRuntime) -> Result<(), Fail> {
    let report = refusals(rt.alloc(), &KNOWN)?;
    assert!(&rt; report.is_empty(), "{report}");
    Ok(())
}
