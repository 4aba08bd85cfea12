//! Elements.

use super::answers::{differences, refusals};
use std::test::Fail;

/// Names that are in no table of elements, and names of no component.
static UNKNOWN: [(&str, &str); 16] = [
    ("function App() { return <^B/>; }", "UnknownElement"),
    ("function App() { return <^P/>; }", "UnknownElement"),
    ("function App() { return <^app/>; }", "UnknownElement"),
    ("function App() { return <^suspense/>; }", "UnknownElement"),
    ("function App() { return <^Suspens/>; }", "UnknownElement"),
    ("function App() { return <^_p/>; }", "UnknownElement"),
    ("function App() { return <^img/>; }", "UnknownElement"),
    ("function App() { return <^pre>x</pre>; }", "UnknownElement"),
    ("function App() { return <^template/>; }", "UnknownElement"),
    ("function App() { return <^table/>; }", "UnknownElement"),
    ("function App() { return <^h7/>; }", "UnknownElement"),
    (
        "function App() { return <p><^b-b/></p>; }",
        "UnknownElement",
    ),
    (
        "function App() { return <Suspense fallback={<^B/>}/>; }",
        "UnknownElement",
    ),
    (
        "function App() { const xs = 1; return xs.map((x) => <^Row/>); }",
        "UnknownElement",
    ),
    (
        "function App() { const B = 1; return <^B/>; }",
        "UnknownElement",
    ),
    (
        "function a2() { return 1; } function App() { return <^a2/>; }",
        "UnknownElement",
    ),
];

#[test]
fn unknown_elements(rt: HostRuntime) -> Result<(), Fail> {
    let report = differences(rt.alloc(), &UNKNOWN)?;
    assert!(&rt; report.is_empty(), "{report}");
    Ok(())
}

/// Components that stand in themselves or before themselves.
static EARLY: [(&str, &str); 10] = [
    ("function App() { return <^App/>; }", "UsedBeforeDefined"),
    (
        "function App() { return <p>{[1, <^App/>]}</p>; }",
        "UsedBeforeDefined",
    ),
    (
        "function App() { return <^B/>; } function B() { return 1; }",
        "UsedBeforeDefined",
    ),
    (
        "function A() { return <p><^B/></p>; } function B() { return 1; } function App() { return <A/>; }",
        "UsedBeforeDefined",
    ),
    (
        "function A() { return <^A/>; } function App() { return 1; }",
        "UsedBeforeDefined",
    ),
    (
        "function A() { return <^B/>; } function B() { return <A/>; } function App() { return <B/>; }",
        "UsedBeforeDefined",
    ),
    (
        "function App() { const xs = 1; return xs.map((x) => <^B x={x}/>); } function B({ x }) { return x; }",
        "UsedBeforeDefined",
    ),
    (
        "function App() { return 1 ? <^B/> : 2; } function B() { return 1; }",
        "UsedBeforeDefined",
    ),
    (
        "function App() { return <Suspense fallback={<^B/>}/>; } function B() { return 1; }",
        "UsedBeforeDefined",
    ),
    (
        "function App() { return <Suspense><^App/></Suspense>; }",
        "UsedBeforeDefined",
    ),
];

#[test]
fn components_before_their_definition(rt: HostRuntime) -> Result<(), Fail> {
    let report = differences(rt.alloc(), &EARLY)?;
    assert!(&rt; report.is_empty(), "{report}");
    Ok(())
}

/// Elements of the table, and of components before.
static KNOWN: [&str; 11] = [
    "function App() { return <div/>; }",
    "function App() { return <br/>; }",
    "function App() { return <wbr></wbr>; }",
    "function App() { return <h6><samp/></h6>; }",
    "function App() { return <></>; }",
    "function App() { return <Suspense/>; }",
    "function A() { return 1; } function App() { return <A/>; }",
    "function A() { return 1; } function App() { return <A></A>; }",
    "function p() { return 1; } function App() { return <p>x</p>; }",
    "function App() { const xs = 1; return xs.map((x) => <li>{x}</li>); }",
    "function A() { return 1; } function B() { return <A/>; } function App() { return [<A/>, <B/>, <A/>]; }",
];

#[test]
fn known_elements(rt: HostRuntime) -> Result<(), Fail> {
    let report = refusals(rt.alloc(), &KNOWN)?;
    assert!(&rt; report.is_empty(), "{report}");
    Ok(())
}

/// Fallbacks with components and boundaries.
static FALLBACKS: [(&str, &str); 10] = [
    (
        "function A() { return 1; } function App() { return <Suspense fallback={<^A/>}/>; }",
        "FallbackNotPlain",
    ),
    (
        "function App() { return <Suspense fallback={<^Suspense/>}/>; }",
        "FallbackNotPlain",
    ),
    (
        "function A() { return 1; } function App() { return <Suspense fallback={<p><^A/></p>}>x</Suspense>; }",
        "FallbackNotPlain",
    ),
    (
        "function A() { return 1; } function App() { return <Suspense fallback={[1, <^A/>]}/>; }",
        "FallbackNotPlain",
    ),
    (
        "function A() { return 1; } function App() { return <Suspense fallback={1 && <^A/>}/>; }",
        "FallbackNotPlain",
    ),
    (
        "function A() { return 1; } function App() { return <Suspense fallback={1 ? <p/> : <^A/>}/>; }",
        "FallbackNotPlain",
    ),
    (
        "function A() { return 1; } function App() { const xs = 1; return <Suspense fallback={xs.map((x) => <^A/>)}/>; }",
        "FallbackNotPlain",
    ),
    (
        "function A() { return 1; } function App() { return <Suspense><Suspense fallback={<><^A/></>}/></Suspense>; }",
        "FallbackNotPlain",
    ),
    (
        "function App() { return <p><Suspense fallback={<i><b><^Suspense>x</Suspense></b></i>}/></p>; }",
        "FallbackNotPlain",
    ),
    (
        "function A() { return 1; } function App() { return <Suspense fallback={<^A/>}><A/></Suspense>; }",
        "FallbackNotPlain",
    ),
];

#[test]
fn fallbacks_that_are_not_plain(rt: HostRuntime) -> Result<(), Fail> {
    let report = differences(rt.alloc(), &FALLBACKS)?;
    assert!(&rt; report.is_empty(), "{report}");
    Ok(())
}

/// Plain fallbacks, with components and boundaries beside them.
static PLAIN: [&str; 6] = [
    "function App() { return <Suspense fallback={<p>wait</p>}>x</Suspense>; }",
    "function A() { return 1; } function App() { return <Suspense fallback={<p>wait</p>}><A/></Suspense>; }",
    "function App() { return <Suspense fallback={1}><Suspense fallback={2}>x</Suspense></Suspense>; }",
    "function A() { return 1; } function App() { return <p><Suspense fallback={<i/>}/><A/></p>; }",
    "function A({ fallback }) { return fallback; } function App() { return <A fallback={1}/>; }",
    "function App() { const xs = 1; return <Suspense fallback={xs.map((x) => <li>{x}</li>)}/>; }",
];

#[test]
fn plain_fallbacks(rt: HostRuntime) -> Result<(), Fail> {
    let report = refusals(rt.alloc(), &PLAIN)?;
    assert!(&rt; report.is_empty(), "{report}");
    Ok(())
}
