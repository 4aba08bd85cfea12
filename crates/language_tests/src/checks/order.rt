//! Files with two faults.

use super::answers::differences;
use std::test::Fail;

/// Two faults: the one at the least place is told, at one place the first in the order of the rules, and names
/// before `App`.
static PAIRS: [(&str, &str); 25] = [
    (
        "function App() { return <p ^class={x}/>; }",
        "UnknownAttribute",
    ),
    (
        "function App() { return <p title={^x} class=\"a\"/>; }",
        "UnknownName",
    ),
    ("function App() { return [^x, <B/>]; }", "UnknownName"),
    ("function App() { return [<^B/>, x]; }", "UnknownElement"),
    (
        "function App() { return <p title=\"a\" ^title={x}/>; }",
        "TwiceDefined",
    ),
    (
        "function App() { return <p title={^x} title=\"a\"/>; }",
        "UnknownName",
    ),
    (
        "function App() { return <p ^class=\"a\" class=\"b\"/>; }",
        "UnknownAttribute",
    ),
    ("function App() { return <^B a={x}/>; }", "UnknownElement"),
    (
        "function App() { return [<p title=\"a\" ^title=\"b\"/>, <App/>]; }",
        "TwiceDefined",
    ),
    (
        "function App() { return [<^App/>, <p title=\"a\" title=\"b\"/>]; }",
        "UsedBeforeDefined",
    ),
    (
        "function App() { const a = ^x; const a = 1; return a; }",
        "UnknownName",
    ),
    (
        "function App() { const a = 1; const ^a = x; return y; }",
        "TwiceDefined",
    ),
    (
        "function A({ a, ^a }) { return <A/>; } function App() { return <A/>; }",
        "TwiceDefined",
    ),
    (
        "function A() { return <^A/>; } function A() { return 1; } function App() { return 1; }",
        "UsedBeforeDefined",
    ),
    (
        "function A() { return 1; } function ^A() { return <A b={1}/>; } function App() { return 1; }",
        "TwiceDefined",
    ),
    (
        "function A() { return 1; } function App() { return <A ^b={x}/>; } function A() { return 2; }",
        "UnknownAttribute",
    ),
    (
        "function App() { return <Suspense ^id=\"a\" fallback={<App/>}/>; }",
        "UnknownAttribute",
    ),
    (
        "function A() { return 1; } function App() { return <Suspense fallback={<^A b={1}/>}/>; }",
        "FallbackNotPlain",
    ),
    (
        "function A() { return 1; } function App() { return <Suspense fallback={<^A2/>}/>; }",
        "UnknownElement",
    ),
    (
        "function App() { return <Suspense fallback={<^App/>}/>; }",
        "UsedBeforeDefined",
    ),
    (
        "function A() { return 1; } function App() { return <Suspense fallback={<p ^class=\"a\"><A/></p>}/>; }",
        "UnknownAttribute",
    ),
    ("function App({ a }) { return ^x; }", "UnknownName"),
    ("function A() { return <^B/>; }", "UnknownElement"),
    ("function App({ a, ^a }) { return a; }", "TwiceDefined"),
    (
        "function App({ a }) { return 1; } function ^App() { return 1; }",
        "TwiceDefined",
    ),
];

#[test]
fn the_first_of_two_faults(rt: HostRuntime) -> Result<(), Fail> {
    let report = differences(rt.alloc(), &PAIRS)?;
    assert!(&rt; report.is_empty(), "{report}");
    Ok(())
}
