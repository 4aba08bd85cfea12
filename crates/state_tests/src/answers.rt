//! What each call of a page's state answers, and how it refuses.

use super::steps::Step;
use super::tables::{Row, differences};
use std::test::Fail;

/// A component outside all boundaries that waits for `u`.
fn shell() -> &'static str {
    "function App() { const u = use(\"u\"); return <p>{u}</p>; }\n"
}

/// Two components in one boundary that wait for `u`.
fn twice() -> &'static str {
    "function Body() { const u = use(\"u\"); return <p>{u}</p>; }
function App() { return <Suspense fallback={<i>wait</i>}><Body/><Body/></Suspense>; }
"
}

static SETTLES_U: &str = "[{\"resolve\":\"u\",\"value\":\"x\"}]";

/// A page that is closed too early, in each of the three ways, and then in time.
static BUSY: [Row; 14] = [
    (Step::Counts, "0 claimed, 1 runnable, 0 settled, 0 marks"),
    (Step::Fate, "running"),
    (Step::Flush(0), ""),
    (Step::Close, "1 runnable, 0 claimed, 1 unsettled"),
    (Step::Hold, "task 0 claim 0 settled 0"),
    (Step::Hold, "nothing"),
    (Step::Close, "0 runnable, 1 claimed, 1 unsettled"),
    (Step::Commit(0), "taken"),
    (Step::Close, "0 runnable, 0 claimed, 1 unsettled"),
    (Step::Settle, "settled 0"),
    (Step::Settle, "nothing"),
    (Step::Close, "1 runnable, 0 claimed, 0 unsettled"),
    (Step::WorkAll, ""),
    (Step::Close, "0 failed"),
];

/// Works that come back, and works that are stale since what was claimed became runnable again.
static STALE: [Row; 19] = [
    (Step::Hold, "task 0 claim 0 settled 0"),
    (Step::Reclaim, "1 reclaimed"),
    (Step::GiveBack(0), "stale"),
    (Step::Hold, "task 0 claim 0 settled 0"),
    (Step::GiveBack(0), "taken"),
    (Step::Hold, "task 0 claim 1 settled 0"),
    (Step::Reclaim, "1 reclaimed"),
    (Step::Commit(0), "stale"),
    (Step::Hold, "task 0 claim 0 settled 0"),
    (Step::GiveBack(0), "taken"),
    (Step::Hold, "task 0 claim 1 settled 0"),
    (Step::GiveBack(0), "taken"),
    (Step::Hold, "task 0 claim 2 settled 0"),
    (Step::Reclaim, "1 reclaimed"),
    (Step::Hold, "task 0 claim 0 settled 0"),
    (Step::GiveBack(0), "stale, claimed as 0"),
    (Step::Counts, "1 claimed, 0 runnable, 0 settled, 0 marks"),
    (Step::Commit(0), "taken"),
    (Step::Counts, "0 claimed, 0 runnable, 0 settled, 0 marks"),
];

/// The same of a piece.
static STALE_PIECE: [Row; 10] = [
    (Step::Hold, "task 0 claim 0 settled 0"),
    (Step::GiveBack(0), "taken"),
    (Step::Hold, "task 0 claim 1 settled 0"),
    (Step::Reclaim, "1 reclaimed"),
    (Step::Hold, "task 0 claim 0 settled 0"),
    (Step::Commit(0), "stale, claimed as 0"),
    (Step::Counts, "1 claimed, 0 runnable, 0 settled, 0 marks"),
    (Step::Reclaim, "1 reclaimed"),
    (Step::Reclaim, "0 reclaimed"),
    (Step::Counts, "0 claimed, 1 runnable, 0 settled, 0 marks"),
];

#[test]
fn pages_are_closed_in_time(rt: HostRuntime) -> Result<(), Fail> {
    let report = differences(rt.alloc(), shell(), SETTLES_U, &BUSY)?;
    assert!(&rt; report.is_empty(), "{report}");
    Ok(())
}

#[test]
fn stale_works_are_refused(rt: HostRuntime) -> Result<(), Fail> {
    let report = differences(rt.alloc(), shell(), SETTLES_U, &STALE)?;
    assert!(&rt; report.is_empty(), "{report}");
    let report = differences(rt.alloc(), shell(), SETTLES_U, &STALE_PIECE)?;
    assert!(&rt; report.is_empty(), "{report}");
    Ok(())
}

/// A boundary fails while another of its works is held.
static DROPPED: [Row; 12] = [
    (Step::WorkAll, ""),
    (Step::Settle, "settled 0"),
    (Step::Counts, "0 claimed, 2 runnable, 1 settled, 0 marks"),
    (Step::Hold, "task 3 claim 3 settled 1"),
    (Step::WorkOnce, "worked"),
    (Step::Counts, "0 claimed, 0 runnable, 1 settled, 0 marks"),
    (Step::Commit(0), "stale"),
    (Step::Close, "0 failed"),
    (
        Step::Flush(0),
        "<!--$!--><template data-dgst=\"e1\"></template><i>wait</i><!--/$-->",
    ),
    (Step::Flush(0), ""),
    (Step::Counts, "0 claimed, 0 runnable, 1 settled, 1 marks"),
    (Step::Fate, "ended"),
];

#[test]
fn a_failed_boundary_drops_its_works(rt: HostRuntime) -> Result<(), Fail> {
    let script = "[{\"reject\":\"u\",\"digest\":\"e1\"}]";
    let report = differences(rt.alloc(), twice(), script, &DROPPED)?;
    assert!(&rt; report.is_empty(), "{report}");
    Ok(())
}

/// What never settles stands outside all boundaries.
static SHELL_NEVER: [Row; 7] = [
    (Step::WorkAll, ""),
    (Step::Flush(0), ""),
    (Step::Close, "0 failed"),
    (Step::Fate, "shell failed: unsettled"),
    (Step::Flush(0), ""),
    (Step::Hold, "nothing"),
    (Step::Counts, "0 claimed, 0 runnable, 0 settled, 0 marks"),
];

/// It is rejected.
static SHELL_REJECTED: [Row; 6] = [
    (Step::Settle, "settled 0"),
    (Step::WorkOnce, "worked"),
    (Step::Fate, "shell failed: gone"),
    (Step::Flush(0), ""),
    (Step::WorkOnce, "nothing"),
    (Step::Counts, "0 claimed, 0 runnable, 1 settled, 0 marks"),
];

#[test]
fn failed_shells_send_nothing(rt: HostRuntime) -> Result<(), Fail> {
    let report = differences(rt.alloc(), shell(), "[]", &SHELL_NEVER)?;
    assert!(&rt; report.is_empty(), "{report}");
    let script = "[{\"reject\":\"u\",\"digest\":\"gone\"}]";
    let report = differences(rt.alloc(), shell(), script, &SHELL_REJECTED)?;
    assert!(&rt; report.is_empty(), "{report}");
    Ok(())
}
