//! Worked pages, call by call: what each flush sends.

use super::steps::Step;
use super::tables::{Row, differences};
use std::test::Fail;

/// A boundary that waits for `u`.
fn body() -> &'static str {
    "function Body() { const u = use(\"u\"); return <p>{u}</p>; }
function App() { return <Suspense fallback={<i>wait</i>}><Body/></Suspense>; }
"
}

/// A boundary that waits for `u`, and within it for `v`.
fn nested() -> &'static str {
    "function Inner() { const v = use(\"v\"); return <em>{v}</em>; }
function Outer() { const u = use(\"u\"); return <section><b>{u}</b><Inner/></section>; }
function App() { return <Suspense fallback={<i>wait</i>}><Outer/></Suspense>; }
"
}

/// Two boundaries beside each other.
fn parts() -> &'static str {
    "function Part({ n }) { const x = use(n); return <p>{x}</p>; }
function App() { return <><Suspense fallback={<i>1</i>}><Part n=\"u\"/></Suspense><Suspense fallback={<i>2</i>}><Part n=\"v\"/></Suspense></>; }
"
}

/// The content comes after the first flush.
static LATE: [Row; 10] = [
    (Step::WorkAll, ""),
    (
        Step::Flush(0),
        "<!--$?--><template id=\"B:0\"></template><i>wait</i><!--/$-->",
    ),
    (Step::Settle, "settled 0"),
    (Step::Reclaim, "0 reclaimed"),
    (Step::WorkAll, ""),
    (Step::Close, "0 failed"),
    (
        Step::Flush(0),
        "<div hidden id=\"S:0\"><p>x</p></div><script>RC$RC(\"B:0\",\"S:0\")</script>",
    ),
    (Step::Flush(0), ""),
    (Step::Counts, "0 claimed, 0 runnable, 1 settled, 2 marks"),
    (Step::Fate, "ended"),
];

/// The content is claimed before its resource settles, and rendered as it was claimed: it is to be rendered again.
static CLAIMED: [Row; 11] = [
    (Step::WorkOnce, "worked"),
    (Step::Hold, "task 1 claim 1 settled 0"),
    (Step::Settle, "settled 0"),
    (Step::Commit(0), "taken"),
    (Step::Counts, "0 claimed, 2 runnable, 1 settled, 0 marks"),
    (Step::Reclaim, "0 reclaimed"),
    (Step::WorkAll, ""),
    (Step::Close, "0 failed"),
    (Step::Flush(0), "<!--$--><p>x</p><!--/$-->"),
    (Step::Counts, "0 claimed, 0 runnable, 1 settled, 1 marks"),
    (Step::Fate, "ended"),
];

/// The same where the content is held over two flushes.
static HELD: [Row; 16] = [
    (Step::WorkOnce, "worked"),
    (Step::Hold, "task 1 claim 1 settled 0"),
    (Step::Flush(0), ""),
    (Step::WorkOnce, "worked"),
    (
        Step::Flush(0),
        "<!--$?--><template id=\"B:0\"></template><i>wait</i><!--/$-->",
    ),
    (Step::Settle, "settled 0"),
    (Step::Flush(0), ""),
    (Step::Commit(0), "taken"),
    (Step::Hold, "task 1 claim 3 settled 1"),
    (Step::Flush(0), ""),
    (Step::Commit(0), "taken"),
    (
        Step::Flush(0),
        "<div hidden id=\"S:0\"><p>x</p></div><script>RC$RC(\"B:0\",\"S:0\")</script>",
    ),
    (Step::WorkOnce, "nothing"),
    (Step::Close, "0 failed"),
    (Step::Counts, "0 claimed, 0 runnable, 1 settled, 2 marks"),
    (Step::Fate, "ended"),
];

static SETTLES_U: &str = "[{\"resolve\":\"u\",\"value\":\"x\"}]";

#[test]
fn a_boundary_comes_late(rt: HostRuntime) -> Result<(), Fail> {
    let report = differences(rt.alloc(), body(), SETTLES_U, &LATE)?;
    assert!(&rt; report.is_empty(), "{report}");
    Ok(())
}

#[test]
fn a_work_is_held_until_its_resource_settles(rt: HostRuntime) -> Result<(), Fail> {
    let report = differences(rt.alloc(), body(), SETTLES_U, &CLAIMED)?;
    assert!(&rt; report.is_empty(), "{report}");
    let report = differences(rt.alloc(), body(), SETTLES_U, &HELD)?;
    assert!(&rt; report.is_empty(), "{report}");
    Ok(())
}

/// A part of the content comes later than the rest.
static IN_PARTS: [Row; 10] = [
    (Step::WorkAll, ""),
    (
        Step::Flush(0),
        "<!--$?--><template id=\"B:0\"></template><i>wait</i><!--/$-->",
    ),
    (Step::Settle, "settled 0"),
    (Step::WorkAll, ""),
    (
        Step::Flush(0),
        "<div hidden id=\"S:0\"><section><b>1</b><template id=\"P:1\"></template></section></div>",
    ),
    (Step::Settle, "settled 1"),
    (Step::WorkAll, ""),
    (Step::Close, "0 failed"),
    (
        Step::Flush(0),
        "<div hidden id=\"S:1\"><em>2</em></div><script>RS$RS(\"S:1\",\"P:1\")</script><script>RC$RC(\"B:0\",\"S:0\")</script>",
    ),
    (Step::Fate, "ended"),
];

/// The later part fails.
static FAILS_IN_PARTS: [Row; 10] = [
    (Step::WorkAll, ""),
    (
        Step::Flush(0),
        "<!--$?--><template id=\"B:0\"></template><i>wait</i><!--/$-->",
    ),
    (Step::Settle, "settled 0"),
    (Step::WorkAll, ""),
    (
        Step::Flush(0),
        "<div hidden id=\"S:0\"><section><b>1</b><template id=\"P:1\"></template></section></div>",
    ),
    (Step::Settle, "settled 1"),
    (Step::WorkAll, ""),
    (Step::Close, "0 failed"),
    (Step::Flush(0), "<script>RX$RX(\"B:0\",\"e2\")</script>"),
    (Step::Fate, "ended"),
];

#[test]
fn a_content_comes_in_parts(rt: HostRuntime) -> Result<(), Fail> {
    let script = "[{\"resolve\":\"u\",\"value\":\"1\"},{\"resolve\":\"v\",\"value\":\"2\"}]";
    let report = differences(rt.alloc(), nested(), script, &IN_PARTS)?;
    assert!(&rt; report.is_empty(), "{report}");
    let script = "[{\"resolve\":\"u\",\"value\":\"1\"},{\"reject\":\"v\",\"digest\":\"e2\"}]";
    let report = differences(rt.alloc(), nested(), script, &FAILS_IN_PARTS)?;
    assert!(&rt; report.is_empty(), "{report}");
    Ok(())
}

/// A budget of one byte ends a flush after the first segment.
static WITH_BUDGET: [Row; 10] = [
    (Step::WorkAll, ""),
    (
        Step::Flush(0),
        "<!--$?--><template id=\"B:0\"></template><i>1</i><!--/$--><!--$?--><template id=\"B:1\"></template><i>2</i><!--/$-->",
    ),
    (Step::Settle, "settled 0"),
    (Step::Settle, "settled 1"),
    (Step::WorkAll, ""),
    (Step::Flush(1), "<div hidden id=\"S:0\"><p>x</p></div> .."),
    (Step::Flush(1), "<script>RC$RC(\"B:0\",\"S:0\")</script> .."),
    (
        Step::Flush(60),
        "<div hidden id=\"S:1\"><p>y</p></div><script>$RC(\"B:1\",\"S:1\")</script>",
    ),
    (Step::Counts, "0 claimed, 0 runnable, 2 settled, 4 marks"),
    (Step::Fate, "ended"),
];

#[test]
fn budgets_end_flushes(rt: HostRuntime) -> Result<(), Fail> {
    let script = "[{\"resolve\":\"u\",\"value\":\"x\"},{\"resolve\":\"v\",\"value\":\"y\"}]";
    let report = differences(rt.alloc(), parts(), script, &WITH_BUDGET)?;
    assert!(&rt; report.is_empty(), "{report}");
    Ok(())
}

/// The resource never settles.
static NEVER: [Row; 7] = [
    (Step::WorkAll, ""),
    (
        Step::Flush(0),
        "<!--$?--><template id=\"B:0\"></template><i>wait</i><!--/$-->",
    ),
    (Step::Settle, "nothing"),
    (Step::Close, "1 failed"),
    (
        Step::Flush(0),
        "<script>RX$RX(\"B:0\",\"unsettled\")</script>",
    ),
    (Step::Close, "0 failed"),
    (Step::Fate, "ended"),
];

/// The same, where nothing is sent before.
static NEVER_AT_FIRST: [Row; 4] = [
    (Step::WorkAll, ""),
    (Step::Close, "1 failed"),
    (
        Step::Flush(0),
        "<!--$!--><template data-dgst=\"unsettled\"></template><i>wait</i><!--/$-->",
    ),
    (Step::Fate, "ended"),
];

#[test]
fn what_never_settles_fails(rt: HostRuntime) -> Result<(), Fail> {
    let report = differences(rt.alloc(), body(), "[]", &NEVER)?;
    assert!(&rt; report.is_empty(), "{report}");
    let report = differences(rt.alloc(), body(), "[]", &NEVER_AT_FIRST)?;
    assert!(&rt; report.is_empty(), "{report}");
    Ok(())
}
