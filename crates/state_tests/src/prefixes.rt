//! Pages that are cut at each byte: none has a fault, and from the end of the shell on each shows the settled tree with
//! some boundaries pending. So no boundary is revealed before all of its content is there.

ghost use Rattle.std.specs.Prelude.{OnOk};
ghost use Rattle.state_tests.specs.Driven.{IsDriven};

use super::driven::Driven;
use super::pages::seen_so_far;
use super::programs::{COUNT, Program, program_of};
use super::shows::is_shown;
use super::sources::{Source, forest_of, plan_of, source_of};
use fizz_piece::Plan;
use settled_tree::Forest;
use std::alloc::Global;
use std::test::Fail;

/// How often outcomes are settled, each time the next one: no page here has more.
const ROUNDS: u32 = 8;

/// A page as users have it: an article that waits, and in it comments that wait.
fn blog() -> Program {
    Program {
        text: "function Comment({ c }) { return <li data-id={c.id}><b>{c.author}</b>: {c.text}</li>; }
function Comments({ post }) { const list = use(\"comments:\" + post); return list.length === 0 ? <p>No comments yet.</p> : <ul>{list.map((c) => <Comment key={c.id} c={c}/>)}</ul>; }
function Article() { const a = use(\"post:42\"); return <article><h1>{a.title}</h1><p>{a.body}</p><Suspense fallback={<p className=\"wait\">Loading comments</p>}><Comments post={42}/></Suspense></article>; }
function App() { return <main id=\"page\"><header>Blog &amp; News</header><Suspense fallback={<p className=\"wait\">Loading</p>}><Article/></Suspense></main>; }
",
        script: "[{\"resolve\":\"post:42\",\"value\":{\"title\":\"Fizz\",\"body\":\"It's out.\"}},{\"resolve\":\"comments:42\",\"value\":[{\"id\":1,\"author\":\"Ann\",\"text\":\"<3\"}]}]",
        progressive: 12_800,
    }
}

/// A boundary that waits for what is rejected with a digest that scripts escape.
fn rejected() -> Program {
    Program {
        text: "function Body() { const u = use(\"u\"); return <p>{u}</p>; }
function App() { return <Suspense fallback={<i>wait</i>}><Body/></Suspense>; }
",
        script: "[{\"reject\":\"u\",\"digest\":\"</script>\\\"\"}]",
        progressive: 12_800,
    }
}

/// A boundary of which a part waits for what never settles.
fn unsettled() -> Program {
    Program {
        text: "function Inner() { const v = use(\"v\"); return <em>{v}</em>; }
function Outer() { const u = use(\"u\"); return <section><b>{u}</b><Inner/></section>; }
function App() { return <Suspense fallback={<i>wait</i>}><Outer/></Suspense>; }
",
        script: "[{\"resolve\":\"u\",\"value\":\"1\"}]",
        progressive: 12_800,
    }
}

/// Settles one outcome after another, and renders and sends all that is ready between them.
fn send_by_rounds(alloc: Global, driven: &mut Driven<'_>) -> Result<(), Fail>
    requires { IsDriven driven.old.state driven.old.held.items }
    ensures { OnOk result (IsDriven driven.new.state driven.new.held.items) }
{
    'rounds: for _ in 0..ROUNDS {
        send_round(alloc, driven)?;
    }
    Ok(())
}

fn send_round(alloc: Global, driven: &mut Driven<'_>) -> Result<(), Fail>
    requires { IsDriven driven.old.state driven.old.held.items }
    ensures { OnOk result (IsDriven driven.new.state driven.new.held.items) }
{
    driven.work_all(alloc)?;
    driven.flush(alloc, 0)?;
    driven.settle();
    Ok(())
}

/// The bytes of a page that is sent so.
fn sent_by_rounds(alloc: Global, plan: Plan<'_>) -> Result<Vec<u8>, Fail> {
    let mut driven = Driven::new(alloc, plan)?;
    send_by_rounds(alloc, &mut driven)?;
    driven.finish(alloc)?;
    Ok(driven.state.transcript().to_vec(alloc)?)
}

/// How long the shell of a page is: up to the first container or script.
fn shell_length(page: &[u8]) -> usize {
    match str::from_utf8(page) {
        Ok(text) => first_of(text, "<div hidden id=\"S:").min(first_of(text, "<script>")),
        Err(_) => 0,
    }
}

/// Where a part stands first, or the end.
fn first_of(text: &str, part: &str) -> usize {
    match text.find(part) {
        Some(at) => at,
        None => text.len(),
    }
}

/// A line for each length at which the page doesn't show the tree.
fn differences(alloc: Global, forest: &Forest, page: &[u8]) -> Result<String, Fail> {
    let mut report = String::new(alloc);
    let shell = shell_length(page);
    for length in 0..page.len() {
        let view = seen_so_far(alloc, &page[..length])?;
        if length >= shell && !is_shown(forest, &view) {
            let line = format!(in alloc; "{length} bytes\n")?;
            report.push_str(line.as_str())?;
        }
    }
    Ok(report)
}

fn report_of(alloc: Global, program: Program) -> Result<String, Fail> {
    let source = source_of(alloc, program.text, program.script, program.progressive)?;
    report_from(alloc, &source)
}

fn report_from(alloc: Global, source: &Source) -> Result<String, Fail> {
    let plan = plan_of(alloc, source)?;
    let forest = forest_of(alloc, source)?;
    let page = sent_by_rounds(alloc, plan)?;
    differences(alloc, &forest, page.as_slice())
}

#[test]
fn each_byte_of_a_page_may_be_the_last(rt: HostRuntime) -> Result<(), Fail> {
    let alloc = rt.alloc();
    for number in 0..COUNT {
        let report = report_of(alloc, program_of(number))?;
        assert!(&rt; report.is_empty(), "page {number}: {report}");
    }
    Ok(())
}

#[test]
fn each_byte_of_a_worked_page_may_be_the_last(rt: HostRuntime) -> Result<(), Fail> {
    let alloc = rt.alloc();
    let report = report_of(alloc, blog())?;
    assert!(&rt; report.is_empty(), "{report}");
    let report = report_of(alloc, rejected())?;
    assert!(&rt; report.is_empty(), "{report}");
    let report = report_of(alloc, unsettled())?;
    assert!(&rt; report.is_empty(), "{report}");
    Ok(())
}
