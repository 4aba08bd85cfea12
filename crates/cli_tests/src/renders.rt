//! Pages that come late: what is sent, and what the page then shows.

use super::calls::{Fails, NEVER, RENDER, pair, run_fizz};
use fizz_outside::MemorySink;
use fizz_text::Text;
use std::alloc::{AllocError, Global};
use std::process::Abort;
use std::sync::Wait;
use std::test::Fail;
use std::thread::Threads;

/// `$RC`, `$RS` and `$RX`, as they are sent with their first call.
static RC: &str =
    "$RC=function(b,s){s=document.getElementById(s);s.parentNode.removeChild(s);b=document.getElementById(b);if(b){var o=b.previousSibling,p=o.parentNode,n=b,d=0,t;for(;n;n=t){t=n.nextSibling;if(n.nodeType===8){var x=n.data;if(x===\"/$\"){if(d===0)break;d--}else if(x===\"$\"||x===\"$?\"||x===\"$!\")d++}p.removeChild(n)}for(;s.firstChild;)p.insertBefore(s.firstChild,n);o.data=\"$\"}};";

pub(super) static RS: &str =
    "$RS=function(s,p){s=document.getElementById(s);p=document.getElementById(p);for(s.parentNode.removeChild(s);s.firstChild;)p.parentNode.insertBefore(s.firstChild,p);p.parentNode.removeChild(p)};";

static RX: &str =
    "$RX=function(b,d){b=document.getElementById(b);if(b){b.previousSibling.data=\"$!\";if(d)b.dataset.dgst=d}};";

/// The component files.
#[derive(Clone, Copy)]
enum Page {
    /// A boundary that waits for `u`.
    Body,
    /// A boundary that waits for `u`, and within it for `v`.
    Nested,
    /// Two boundaries beside each other.
    Parts,
    /// A part outside all boundaries that waits for `u`, and is nothing then.
    Empty,
    /// The same with a part that is a letter then.
    Letter,
    /// A page as users have it.
    Blog,
    /// A boundary whose content is there at once.
    Plain,
}

/// A boundary that waits for `u`.
pub(super) static BODY: &str = "function Body() { const u = use(\"u\"); return <p>{u}</p>; }
function App() { return <Suspense fallback={<i>wait</i>}><Body/></Suspense>; }
";

/// A boundary that waits for `u`, and within it for `v`.
pub(super) static NESTED: &str = "function Inner() { const v = use(\"v\"); return <em>{v}</em>; }
function Outer() { const u = use(\"u\"); return <section><b>{u}</b><Inner/></section>; }
function App() { return <Suspense fallback={<i>wait</i>}><Outer/></Suspense>; }
";

fn text_of(page: Page) -> &'static str {
    match page {
        Page::Body => BODY,
        Page::Nested => NESTED,
        Page::Parts => "function Part({ n }) { const x = use(n); return <p>{x}</p>; }
function App() { return <><Suspense fallback={<i>1</i>}><Part n=\"u\"/></Suspense><Suspense fallback={<i>2</i>}><Part n=\"v\"/></Suspense></>; }
",
        Page::Empty => "function Empty() { const u = use(\"u\"); return null; }
function App() { return <p>a<Empty/>b</p>; }
",
        Page::Letter => "function Empty() { const u = use(\"u\"); return \"x\"; }
function App() { return <p>a<Empty/>b</p>; }
",
        Page::Blog =>
            "function Comment({ c }) { return <li data-id={c.id}><b>{c.author}</b>: {c.text}</li>; }
function Comments({ post }) { const list = use(\"comments:\" + post); return list.length === 0 ? <p>No comments yet.</p> : <ul>{list.map((c) => <Comment key={c.id} c={c}/>)}</ul>; }
function Article() { const a = use(\"post:42\"); return <article><h1>{a.title}</h1><p>{a.body}</p><Suspense fallback={<p className=\"wait\">Loading comments</p>}><Comments post={42}/></Suspense></article>; }
function App() { return <main id=\"page\"><header>Blog &amp; News</header><Suspense fallback={<p className=\"wait\">Loading</p>}><Article/></Suspense></main>; }
",
        Page::Plain => "function App() { return <p><Suspense>x</Suspense></p>; }\n",
    }
}

/// A component file, a script, what is sent, and what `show` prints of it. `W` and `F` before a comma or the end are lines
/// that work and flush; `RC`, `RS` and `RX` before a call stand for the function's text.
type Row = (Page, &'static str, &'static str, &'static str);

static ROWS: [Row; 18] = [
    (
        Page::Body,
        "[{\"resolve\":\"u\",\"value\":\"x\"}]",
        "<!--$--><p>x</p><!--/$-->",
        "<p>x</p>",
    ),
    (
        Page::Body,
        "[W,F,{\"resolve\":\"u\",\"value\":\"x\"}]",
        "<!--$?--><template id=\"B:0\"></template><i>wait</i><!--/$--><div hidden id=\"S:0\"><p>x</p></div><script>RC$RC(\"B:0\",\"S:0\")</script>",
        "<p>x</p>",
    ),
    (
        Page::Nested,
        "[W,F,{\"resolve\":\"u\",\"value\":\"1\"},W,F,{\"resolve\":\"v\",\"value\":\"2\"}]",
        "<!--$?--><template id=\"B:0\"></template><i>wait</i><!--/$--><div hidden id=\"S:0\"><section><b>1</b><template id=\"P:1\"></template></section></div><div hidden id=\"S:1\"><em>2</em></div><script>RS$RS(\"S:1\",\"P:1\")</script><script>RC$RC(\"B:0\",\"S:0\")</script>",
        "<section><b>1</b><em>2</em></section>",
    ),
    (
        Page::Empty,
        "[W,{\"resolve\":\"u\",\"value\":1}]",
        "<p>a<!-- -->b</p>",
        "<p>a<!-- -->b</p>",
    ),
    (
        Page::Empty,
        "[{\"resolve\":\"u\",\"value\":1}]",
        "<p>a<!-- -->b</p>",
        "<p>a<!-- -->b</p>",
    ),
    (
        Page::Letter,
        "[W,{\"resolve\":\"u\",\"value\":1}]",
        "<p>a<!-- -->x<!-- -->b</p>",
        "<p>a<!-- -->x<!-- -->b</p>",
    ),
    (
        Page::Letter,
        "[{\"resolve\":\"u\",\"value\":1}]",
        "<p>a<!-- -->x<!-- -->b</p>",
        "<p>a<!-- -->x<!-- -->b</p>",
    ),
    (
        Page::Body,
        "[W,F,{\"reject\":\"u\",\"digest\":\"</script>\\\"\"}]",
        "<!--$?--><template id=\"B:0\"></template><i>wait</i><!--/$--><script>RX$RX(\"B:0\",\"\\u003c/script>\\\"\")</script>",
        "<i>wait</i>",
    ),
    (
        Page::Body,
        "[{\"reject\":\"u\",\"digest\":\"e1\"}]",
        "<!--$!--><template data-dgst=\"e1\"></template><i>wait</i><!--/$-->",
        "<i>wait</i>",
    ),
    (
        Page::Body,
        "[{\"reject\":\"u\",\"digest\":\"\"}]",
        "<!--$!--><template></template><i>wait</i><!--/$-->",
        "<i>wait</i>",
    ),
    (
        Page::Nested,
        "[W,F,{\"resolve\":\"u\",\"value\":\"1\"},W,F,{\"reject\":\"v\",\"digest\":\"e2\"}]",
        "<!--$?--><template id=\"B:0\"></template><i>wait</i><!--/$--><div hidden id=\"S:0\"><section><b>1</b><template id=\"P:1\"></template></section></div><script>RX$RX(\"B:0\",\"e2\")</script>",
        "<i>wait</i>",
    ),
    (
        Page::Body,
        "[W,F]",
        "<!--$?--><template id=\"B:0\"></template><i>wait</i><!--/$--><script>RX$RX(\"B:0\",\"unsettled\")</script>",
        "<i>wait</i>",
    ),
    (
        Page::Body,
        "[]",
        "<!--$!--><template data-dgst=\"unsettled\"></template><i>wait</i><!--/$-->",
        "<i>wait</i>",
    ),
    (
        Page::Parts,
        "[W,F,{\"resolve\":\"u\",\"value\":\"x\"},{\"resolve\":\"v\",\"value\":\"y\"},W,F]",
        "<!--$?--><template id=\"B:0\"></template><i>1</i><!--/$--><!--$?--><template id=\"B:1\"></template><i>2</i><!--/$--><div hidden id=\"S:0\"><p>x</p></div><script>RC$RC(\"B:0\",\"S:0\")</script><div hidden id=\"S:1\"><p>y</p></div><script>$RC(\"B:1\",\"S:1\")</script>",
        "<p>x</p><p>y</p>",
    ),
    (
        Page::Parts,
        "[W,F,{\"resolve\":\"u\",\"value\":\"x\"},{\"resolve\":\"v\",\"value\":\"y\"},W,{\"flush\":1}]",
        "<!--$?--><template id=\"B:0\"></template><i>1</i><!--/$--><!--$?--><template id=\"B:1\"></template><i>2</i><!--/$--><div hidden id=\"S:0\"><p>x</p></div><script>RC$RC(\"B:0\",\"S:0\")</script><div hidden id=\"S:1\"><p>y</p></div><script>$RC(\"B:1\",\"S:1\")</script>",
        "<p>x</p><p>y</p>",
    ),
    (
        Page::Parts,
        "[W,F,{\"resolve\":\"v\",\"value\":\"y\"},W,F,{\"resolve\":\"u\",\"value\":\"x\"}]",
        "<!--$?--><template id=\"B:0\"></template><i>1</i><!--/$--><!--$?--><template id=\"B:1\"></template><i>2</i><!--/$--><div hidden id=\"S:1\"><p>y</p></div><script>RC$RC(\"B:1\",\"S:1\")</script><div hidden id=\"S:0\"><p>x</p></div><script>$RC(\"B:0\",\"S:0\")</script>",
        "<p>x</p><p>y</p>",
    ),
    (
        Page::Blog,
        "[W,F,{\"resolve\":\"post:42\",\"value\":{\"title\":\"Fizz\",\"body\":\"It's out.\"}},W,F,{\"resolve\":\"comments:42\",\"value\":[{\"id\":1,\"author\":\"Ann\",\"text\":\"<3\"}]}]",
        "<main id=\"page\"><header>Blog &amp; News</header><!--$?--><template id=\"B:0\"></template><p class=\"wait\">Loading</p><!--/$--></main><div hidden id=\"S:0\"><article><h1>Fizz</h1><p>It&#x27;s out.</p><!--$?--><template id=\"B:1\"></template><p class=\"wait\">Loading comments</p><!--/$--></article></div><script>RC$RC(\"B:0\",\"S:0\")</script><div hidden id=\"S:1\"><ul><li data-id=\"1\"><b>Ann</b>: <!-- -->&lt;3</li></ul></div><script>$RC(\"B:1\",\"S:1\")</script>",
        "<main id=\"page\"><header>Blog &amp; News</header><article><h1>Fizz</h1><p>It&#x27;s out.</p><ul><li data-id=\"1\"><b>Ann</b>: <!-- -->&lt;3</li></ul></article></main>",
    ),
    (Page::Plain, "[]", "<p><!--$-->x<!--/$--></p>", "<p>x</p>"),
];

/// A script, with its lines that work and flush.
pub(super) fn script_of(alloc: Global, row: &str) -> Result<Vec<u8>, AllocError> {
    let script = row.replace(alloc, "W,", "{\"work\":0},")?;
    let script = script.as_str().replace(alloc, "F,", "{\"flush\":0},")?;
    let script = script.as_str().replace(alloc, ",F]", ",{\"flush\":0}]")?;
    Ok(script.into_bytes())
}

/// What is sent, with the texts of the functions.
pub(super) fn sent_of(alloc: Global, row: &str) -> Result<String, AllocError> {
    let first = format!(in alloc; "{RC}$RC(")?;
    let sent = row.replace(alloc, "RC$RC(", first.as_str())?;
    let first = format!(in alloc; "{RS}$RS(")?;
    let sent = sent.as_str().replace(alloc, "RS$RS(", first.as_str())?;
    let first = format!(in alloc; "{RX}$RX(")?;
    sent.as_str().replace(alloc, "RX$RX(", first.as_str())
}

/// What `show` prints of a page.
fn shown<R: Threads + Wait + Sync>(
    rt: &R,
    alloc: Global,
    page: &[u8],
) -> Result<(u8, MemorySink, MemorySink), AllocError> {
    let mut entries = Vec::new(alloc);
    entries.push((Text::fixed("f.html"), page.to_vec(alloc)?))?;
    run_fizz(rt, alloc, &["show", "f.html"], entries, &NEVER)
}

fn check_row<R: Abort + Threads + Wait + Sync>(
    rt: &R,
    alloc: Global,
    row: &Row,
) -> Result<(), Fail> {
    let sent = sent_of(alloc, row.2)?;
    let entries = pair(
        alloc,
        text_of(row.0).as_bytes().to_vec(alloc)?,
        script_of(alloc, row.1)?,
    )?;
    let (status, out, notes) = run_fizz(rt, alloc, RENDER, entries, &NEVER)?;
    assert_eq!(rt; notes.bytes(), b"".as_slice());
    assert_eq!(rt; out.bytes(), sent.as_bytes());
    assert_eq!(rt; status, 0);
    let (status, out, notes) = shown(rt, alloc, sent.as_bytes())?;
    assert_eq!(rt; notes.bytes(), b"".as_slice());
    assert_eq!(rt; out.bytes(), row.3.as_bytes());
    assert_eq!(rt; status, 0);
    Ok(())
}

#[test]
fn late_parts_are_sent(rt: HostRuntime) -> Result<(), Fail> {
    let alloc = rt.alloc();
    for row in ROWS.iter() {
        check_row(&rt, alloc, row)?;
    }
    Ok(())
}

/// Pages whose content outside all boundaries fails: the component file, the script, and the digest.
static FAILED: [(&str, &str, &str); 4] = [
    (
        "function Bad() { const u = use(\"u\"); if (true) throw \"s1\"; return null; }\nfunction App() { return <div><Suspense fallback={null}><p>x</p></Suspense><Bad/></div>; }\n",
        "[W,F,{\"resolve\":\"u\",\"value\":1}]",
        "s1",
    ),
    (
        "function App() { if (true) throw \"s1\"; return null; }\n",
        "[]",
        "s1",
    ),
    (
        "function App() { const u = use(\"u\"); return <p>{u}</p>; }\n",
        "[]",
        "unsettled",
    ),
    (
        "function App() { const u = use(\"u\"); return <p>{u}</p>; }\n",
        "[W,F,{\"reject\":\"u\",\"digest\":\"gone\"}]",
        "gone",
    ),
];

#[test]
fn failed_shells_send_nothing(rt: HostRuntime) -> Result<(), Fail> {
    let alloc = rt.alloc();
    for (app, script, digest) in FAILED.iter() {
        let entries = pair(
            alloc,
            app.as_bytes().to_vec(alloc)?,
            script_of(alloc, script)?,
        )?;
        let (status, out, notes) = run_fizz(&rt, alloc, RENDER, entries, &NEVER)?;
        let note = format!(in alloc; "shell failed: {digest}\n")?;
        assert_eq!(rt; notes.bytes(), note.as_bytes());
        assert_eq!(rt; out.bytes(), b"".as_slice());
        assert_eq!(rt; status, 5);
    }
    Ok(())
}

/// The calls of the output failing, each once.
const FAILING: [Fails; 3] = [[&[], &[0], &[]], [&[], &[1], &[]], [&[], &[2], &[]]];

/// A failed write ends the run, with a prefix of what it sends.
#[test]
fn failing_outputs_end_the_run(rt: HostRuntime) -> Result<(), Fail> {
    let alloc = rt.alloc();
    let row = &ROWS[2];
    let sent = sent_of(alloc, row.2)?;
    for fails in FAILING.iter() {
        let entries = pair(
            alloc,
            text_of(row.0).as_bytes().to_vec(alloc)?,
            script_of(alloc, row.1)?,
        )?;
        let (status, out, notes) = run_fizz(&rt, alloc, RENDER, entries, fails)?;
        assert_eq!(rt; status, 7);
        assert_eq!(rt; notes.bytes(), b"".as_slice());
        assert!(&rt; sent.as_bytes().starts_with(out.bytes()));
        assert!(&rt; out.bytes().len() < sent.as_bytes().len());
    }
    Ok(())
}
