//! What the options of commands do.

use super::calls::{NEVER, pair, run_words};
use super::renders::{BODY, NESTED, script_of, sent_of};
use fizz_outside::MemorySink;
use fizz_text::Text;
use std::alloc::{AllocError, Global};
use std::process::Abort;
use std::sync::Wait;
use std::test::Fail;
use std::thread::Threads;

/// The same text so many times.
pub(super) fn repeated(alloc: Global, text: &str, count: usize) -> Result<String, AllocError> {
    let mut all = String::new(alloc);
    for _time in 0..count {
        all.push_str(text)?;
    }
    Ok(all)
}

/// Calls of a page whose boundary waits for a text of so many letters, which is there at once.
fn run_letters<R: Threads + Wait + Sync>(
    rt: &R,
    alloc: Global,
    words: &str,
    letters: &str,
) -> Result<(u8, MemorySink, MemorySink), AllocError> {
    let script = format!(in alloc; "[{{\"resolve\":\"u\",\"value\":\"{letters}\"}}]")?;
    let entries = pair(alloc, BODY.as_bytes().to_vec(alloc)?, script.into_bytes())?;
    run_words(rt, alloc, words, entries, &NEVER)
}

/// A boundary of 12,800 bytes stands in its place; one of a byte more is sent by itself, unless more are let.
#[test]
fn large_boundaries_are_sent_by_themselves(rt: HostRuntime) -> Result<(), Fail> {
    let alloc = rt.alloc();
    let most = repeated(alloc, "a", 12_793)?;
    let (status, out, _) = run_letters(&rt, alloc, "render|a.jsx|s.json", most.as_str())?;
    let inline = format!(in alloc; "<!--$--><p>{most}</p><!--/$-->")?;
    assert_eq!(rt; status, 0);
    assert_eq!(rt; out.bytes().len(), 12_817);
    assert_eq!(rt; out.bytes(), inline.as_bytes());
    let more = repeated(alloc, "a", 12_794)?;
    let (status, out, _) = run_letters(&rt, alloc, "render|a.jsx|s.json", more.as_str())?;
    let late = format!(in alloc;
        "<!--$?--><template id=\"B:0\"></template><i>wait</i><!--/$--><div hidden id=\"S:0\"><p>{more}</p></div><script>RC$RC(\"B:0\",\"S:0\")</script>"
    )?;
    let late = sent_of(alloc, late.as_str())?;
    assert_eq!(rt; status, 0);
    assert_eq!(rt; out.bytes(), late.as_bytes());
    let words = "render|a.jsx|s.json|--progressive|12801";
    let (status, out, _) = run_letters(&rt, alloc, words, more.as_str())?;
    let inline = format!(in alloc; "<!--$--><p>{more}</p><!--/$-->")?;
    assert_eq!(rt; status, 0);
    assert_eq!(rt; out.bytes(), inline.as_bytes());
    Ok(())
}

/// A component file, words, and what is sent. The script settles nothing.
static PREFIXES: [(&str, &str, &str); 5] = [
    (
        "function App() { return <div><p id=\"B:0\">x</p><p id=\"B\">y</p></div>; }\n",
        "render|a.jsx|s.json",
        "<div><p>x</p><p id=\"B\">y</p></div>",
    ),
    (
        "function App() { return <div><p id=\"B:0\">x</p><p id=\"B\">y</p></div>; }\n",
        "render|a.jsx|s.json|--prefix|r-",
        "<div><p id=\"B:0\">x</p><p id=\"B\">y</p></div>",
    ),
    (
        "function App() { return <div><p id=\"r-B:0\">x</p><p id=\"B\">y</p></div>; }\n",
        "render|a.jsx|s.json|--prefix=r-",
        "<div><p>x</p><p id=\"B\">y</p></div>",
    ),
    (
        "function App() { return <div><p id=\"r-B:0\">x</p><p id=\"B\">y</p></div>; }\n",
        "tree|a.jsx|s.json|--prefix=r-",
        "<div><p>x</p><p id=\"B\">y</p></div>",
    ),
    (
        "function App() { return <div><p id=\"B:0\">x</p><p id=\"B\">y</p></div>; }\n",
        "tree|a.jsx|s.json",
        "<div><p>x</p><p id=\"B\">y</p></div>",
    ),
];

/// Ids of the renderer's own form don't stand in a page.
#[test]
fn prefixes_keep_their_ids_free(rt: HostRuntime) -> Result<(), Fail> {
    let alloc = rt.alloc();
    for (app, words, sent) in PREFIXES.iter() {
        let entries = pair(alloc, app.as_bytes().to_vec(alloc)?, b"[]".to_vec(alloc)?)?;
        let (status, out, notes) = run_words(&rt, alloc, words, entries, &NEVER)?;
        assert_eq!(rt; notes.bytes(), b"".as_slice());
        assert_eq!(rt; out.bytes(), sent.as_bytes());
        assert_eq!(rt; status, 0);
    }
    Ok(())
}

/// What is sent under a prefix is shown under it.
#[test]
fn late_parts_have_the_prefix(rt: HostRuntime) -> Result<(), Fail> {
    let alloc = rt.alloc();
    let script = script_of(alloc, "[W,F,{\"resolve\":\"u\",\"value\":\"x\"}]")?;
    let entries = pair(alloc, BODY.as_bytes().to_vec(alloc)?, script)?;
    let words = "render|a.jsx|s.json|--prefix|r-";
    let (status, out, _) = run_words(&rt, alloc, words, entries, &NEVER)?;
    let sent = sent_of(
        alloc,
        "<!--$?--><template id=\"r-B:0\"></template><i>wait</i><!--/$--><div hidden id=\"r-S:0\"><p>x</p></div><script>RC$RC(\"r-B:0\",\"r-S:0\")</script>",
    )?;
    assert_eq!(rt; status, 0);
    assert_eq!(rt; out.bytes(), sent.as_bytes());
    let mut entries = Vec::new(alloc);
    entries.push((Text::fixed("f"), sent.into_bytes()))?;
    let (status, out, _) = run_words(&rt, alloc, "show|f|--prefix=r-", entries, &NEVER)?;
    assert_eq!(rt; status, 0);
    assert_eq!(rt; out.bytes(), b"<p>x</p>".as_slice());
    Ok(())
}

/// Pieces of 16 bytes go to the output, of which the third isn't taken; the next run over a sound output is whole.
#[test]
fn pieces_are_as_long_as_asked(rt: HostRuntime) -> Result<(), Fail> {
    let alloc = rt.alloc();
    let fails: [&'static [u32]; 3] = [&[], &[2], &[]];
    let words = "render|a.jsx|s.json|--chunk|16";
    let (status, out, notes) = run_nested(&rt, alloc, words, &fails)?;
    assert_eq!(rt; status, 7);
    assert_eq!(rt; notes.bytes(), b"".as_slice());
    assert_eq!(rt;
        out.bytes(),
        b"<!--$?--><template id=\"B:0\"></te".as_slice()
    );
    let (status, whole, _) = run_nested(&rt, alloc, words, &NEVER)?;
    assert_eq!(rt; status, 0);
    let (status, at_once, _) = run_nested(&rt, alloc, "render|a.jsx|s.json", &NEVER)?;
    assert_eq!(rt; status, 0);
    assert_eq!(rt; whole.bytes(), at_once.bytes());
    Ok(())
}

fn run_nested<R: Threads + Wait + Sync>(
    rt: &R,
    alloc: Global,
    words: &str,
    fails: &[&'static [u32]; 3],
) -> Result<(u8, MemorySink, MemorySink), AllocError> {
    let script = script_of(
        alloc,
        "[W,F,{\"resolve\":\"u\",\"value\":\"1\"},W,F,{\"resolve\":\"v\",\"value\":\"2\"}]",
    )?;
    let entries = pair(alloc, NESTED.as_bytes().to_vec(alloc)?, script)?;
    run_words(rt, alloc, words, entries, fails)
}

/// Seeds and sizes, and their lines. The lines were computed by another program from the generator's rules.
static GENERATED: [(&str, &str); 4] = [
    ("gen|0|1", "boundaries 1 failed 0 texts 1 document 43\n"),
    (
        "gen|1|50",
        "boundaries 12 failed 1 texts 48 document 1183\n",
    ),
    (
        "gen|0|100",
        "boundaries 22 failed 4 texts 85 document 2051\n",
    ),
    (
        "gen|7|2000",
        "boundaries 454 failed 93 texts 1574 document 40023\n",
    ),
];

#[test]
fn generated_pages_are_summed_up(rt: HostRuntime) -> Result<(), Fail> {
    let alloc = rt.alloc();
    for (words, line) in GENERATED.iter() {
        let (status, out, notes) = run_words(&rt, alloc, words, Vec::new(alloc), &NEVER)?;
        assert_eq!(rt; notes.bytes(), b"".as_slice());
        assert_eq!(rt; out.bytes(), line.as_bytes());
        assert_eq!(rt; status, 0);
    }
    Ok(())
}
