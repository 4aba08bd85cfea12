//! Whole files with whole scripts. Lines that work and flush change no document, and a page may weigh 8,000,000.

use super::pages::{app_of, document_of};
use fizz_text::Text;
use jsx_value::weigh;
use settle_script::read_script;
use std::alloc::Global;
use std::test::Fail;

/// A file, a script with work and flushes, and the final document.
static FILES: [(&str, &str, &str); 6] = [
    (
        "function Body() { const u = use(\"u\"); return <p>{u}</p>; }\nfunction App() { return <Suspense fallback={<i>wait</i>}><Body/></Suspense>; }\n",
        "[{\"work\":0},{\"flush\":0},{\"resolve\":\"u\",\"value\":\"x\"}]",
        "<p>x</p>",
    ),
    (
        "function Inner() { const v = use(\"v\"); return <em>{v}</em>; }\nfunction Outer() { const u = use(\"u\"); return <section><b>{u}</b><Inner/></section>; }\nfunction App() { return <Suspense fallback={<i>wait</i>}><Outer/></Suspense>; }\n",
        "[{\"work\":0},{\"flush\":0},{\"resolve\":\"u\",\"value\":\"1\"},{\"work\":0},{\"flush\":0},{\"resolve\":\"v\",\"value\":\"2\"}]",
        "<section><b>1</b><em>2</em></section>",
    ),
    (
        "function Inner() { const v = use(\"v\"); return <em>{v}</em>; }\nfunction Outer() { const u = use(\"u\"); return <section><b>{u}</b><Inner/></section>; }\nfunction App() { return <Suspense fallback={<i>wait</i>}><Outer/></Suspense>; }\n",
        "[{\"work\":0},{\"flush\":0},{\"resolve\":\"u\",\"value\":\"1\"},{\"work\":0},{\"flush\":0},{\"reject\":\"v\",\"digest\":\"e2\"}]",
        "<i>wait</i>",
    ),
    (
        "function Part({ n }) { const x = use(n); return <p>{x}</p>; }\nfunction App() { return <><Suspense fallback={<i>1</i>}><Part n=\"u\"/></Suspense><Suspense fallback={<i>2</i>}><Part n=\"v\"/></Suspense></>; }\n",
        "[{\"work\":0},{\"flush\":0},{\"resolve\":\"u\",\"value\":\"x\"},{\"resolve\":\"v\",\"value\":\"y\"},{\"work\":0},{\"flush\":0}]",
        "<p>x</p><p>y</p>",
    ),
    (
        "function Part({ n }) { const x = use(n); return <p>{x}</p>; }\nfunction App() { return <><Suspense fallback={<i>1</i>}><Part n=\"u\"/></Suspense><Suspense fallback={<i>2</i>}><Part n=\"v\"/></Suspense></>; }\n",
        "[{\"work\":0},{\"flush\":0},{\"resolve\":\"u\",\"value\":\"x\"},{\"resolve\":\"v\",\"value\":\"y\"},{\"work\":0},{\"flush\":1}]",
        "<p>x</p><p>y</p>",
    ),
    (
        "function Comment({ c }) { return <li data-id={c.id}><b>{c.author}</b>: {c.text}</li>; }\nfunction Comments({ post }) { const list = use(\"comments:\" + post); return list.length === 0 ? <p>No comments yet.</p> : <ul>{list.map((c) => <Comment key={c.id} c={c}/>)}</ul>; }\nfunction Article() { const a = use(\"post:42\"); return <article><h1>{a.title}</h1><p>{a.body}</p><Suspense fallback={<p className=\"wait\">Loading comments</p>}><Comments post={42}/></Suspense></article>; }\nfunction App() { return <main id=\"page\"><header>Blog &amp; News</header><Suspense fallback={<p className=\"wait\">Loading</p>}><Article/></Suspense></main>; }\n",
        "[{\"work\":0},{\"flush\":0},{\"resolve\":\"post:42\",\"value\":{\"title\":\"Fizz\",\"body\":\"It's out.\"}},{\"work\":0},{\"flush\":0},{\"resolve\":\"comments:42\",\"value\":[{\"id\":1,\"author\":\"Ann\",\"text\":\"<3\"}]}]",
        "<main id=\"page\"><header>Blog &amp; News</header><article><h1>Fizz</h1><p>It&#x27;s out.</p><ul><li data-id=\"1\"><b>Ann</b>: <!-- -->&lt;3</li></ul></article></main>",
    ),
];

#[test]
fn work_and_flushes_change_no_document(rt: HostRuntime) -> Result<(), Fail> {
    let report = differences(rt.alloc(), &FILES)?;
    assert!(&rt; report.is_empty(), "{report}");
    Ok(())
}

/// A line for each file with another document.
fn differences(alloc: Global, rows: &[(&str, &str, &str)]) -> Result<String, Fail> {
    let mut report = String::new(alloc);
    for (file, script, shown) in rows {
        let found = document_of(alloc, file, script)?;
        if found.as_str() != *shown {
            let line = format!(in alloc; "{found} for {shown}: {file} of {script}\n")?;
            report.push_str(line.as_str())?;
        }
    }
    Ok(report)
}

/// How many letters a boundary's content shows, and what the page weighs.
static WEIGHTS: [(usize, &str); 3] = [
    (1, "12"),
    (7_999_989, "8000000"),
    (7_999_990, "TooLarge { limit: 8000000 }"),
];

#[test]
fn the_heaviest_pages(rt: HostRuntime) -> Result<(), Fail> {
    let report = other_weights(rt.alloc(), &WEIGHTS)?;
    assert!(&rt; report.is_empty(), "{report}");
    Ok(())
}

/// A boundary that shows what `u` is.
fn one_boundary() -> &'static str {
    "function Body() { const u = use(\"u\"); return <p>{u}</p>; }\nfunction App() { return <Suspense fallback={<i>wait</i>}><Body/></Suspense>; }\n"
}

/// A line for each number of letters with which the page weighs otherwise.
fn other_weights(alloc: Global, rows: &[(usize, &str)]) -> Result<String, Fail> {
    let mut report = String::new(alloc);
    for (count, wanted) in rows {
        let script = script_of(alloc, *count)?;
        let found = weight_in_words(alloc, script.as_str())?;
        if found.as_str() != *wanted {
            let line = format!(in alloc; "{found} for {wanted}: {count} letters\n")?;
            report.push_str(line.as_str())?;
        }
    }
    Ok(report)
}

fn script_of(alloc: Global, count: usize) -> Result<String, Fail> {
    let letters = "a".repeat(alloc, count)?;
    Ok(format!(in alloc; "[{{\"resolve\":\"u\",\"value\":\"{letters}\"}}]")?)
}

fn weight_in_words(alloc: Global, script: &str) -> Result<String, Fail> {
    let app = app_of(alloc, one_boundary())?;
    let script = read_script(alloc, script.as_bytes())?;
    let outcomes = script.outcomes();
    let prefix = Text::fixed("");
    match weigh(alloc, &app, outcomes, outcomes.len(), &prefix) {
        Ok(weight) => Ok(format!(in alloc; "{weight}")?),
        Err(refused) => Ok(format!(in alloc; "{refused:?}")?),
    }
}

#[test]
fn the_heaviest_page_is_shown(rt: HostRuntime) -> Result<(), Fail> {
    let script = script_of(rt.alloc(), 7_999_989)?;
    let document = document_of(rt.alloc(), one_boundary(), script.as_str())?;
    assert_eq!(rt; document.len(), 7_999_996);
    Ok(())
}
