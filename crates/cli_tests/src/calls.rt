use fizz_cli::{Command, Options, fizz, fizz_inline};
use fizz_outside::{MemoryFiles, MemorySink, OpenGate};
use fizz_text::Text;
use std::alloc::{AllocError, Global};
use std::sync::Wait;
use std::test::Fail;
use std::thread::Threads;

pub(super) const RENDER: &[&str] = &["render", "a.jsx", "s.json"];

pub(super) const PAGE: &[u8] = b"function App() { return <div className=\"a\">Hi</div>; }\n";

pub(super) const HTML: &str = "<div class=\"a\">Hi</div>";

/// Which calls fail: of the files, of the output and of the notes.
pub(super) type Fails = [&'static [u32]; 3];

pub(super) const NEVER: Fails = [&[], &[], &[]];

/// Words, with the calls that fail; and the status, the output and the note over the files `a.jsx` and `s.json`.
const WORDS: [(&[&str], Fails, u8, &str, &str); 10] = [
    (RENDER, NEVER, 0, HTML, ""),
    (
        &["render", "b.jsx", "s.json"],
        NEVER,
        3,
        "",
        "cannot read b.jsx\n",
    ),
    (
        &["render", "a.jsx", "t.json"],
        NEVER,
        3,
        "",
        "cannot read t.json\n",
    ),
    (RENDER, [&[0], &[], &[]], 3, "", "cannot read a.jsx\n"),
    (RENDER, [&[1], &[], &[]], 3, "", "cannot read s.json\n"),
    (RENDER, [&[2], &[], &[]], 0, HTML, ""),
    (RENDER, [&[], &[0], &[]], 7, "", ""),
    (&["render"], [&[], &[], &[0]], 7, "", ""),
    (&["render", "b.jsx", "s.json"], [&[], &[0], &[0]], 7, "", ""),
    (RENDER, [&[], &[], &[0]], 0, HTML, ""),
];

/// Component files and scripts of `render`, and the status, the output and the note.
const FILES: [(&[u8], &[u8], u8, &str, &str); 15] = [
    (PAGE, b"[]\n", 0, HTML, ""),
    (PAGE, b"[ ]", 0, HTML, ""),
    (
        b"function App() {\xff",
        b"[]",
        4,
        "",
        "a.jsx: NotUtf8 valid=16\n",
    ),
    (b"function App() { return null; }\n", b"[]", 0, "", ""),
    (b"", b"x", 4, "", "a.jsx: NoApp\n"),
    (PAGE, b"", 4, "", "s.json: NotJson\n"),
    (PAGE, b"{}", 4, "", "s.json: NotJson\n"),
    (PAGE, b"\xff", 4, "", "s.json: NotJson\n"),
    (
        PAGE,
        b"[{\"resolve\":\"u\",\"va",
        4,
        "",
        "s.json: NotJson\n",
    ),
    (
        PAGE,
        b"[{\"claim\":0}]",
        4,
        "",
        "s.json: NotEvent index=0\n",
    ),
    (
        PAGE,
        b"[{\"resolve\":\"u\",\"value\":1.5}]",
        4,
        "",
        "s.json: BadValue index=0\n",
    ),
    (PAGE, TWICE, 4, "", "s.json: SettledTwice index=1 first=0\n"),
    (PAGE, b"[{\"work\":0}]", 0, HTML, ""),
    (PAGE, b"[{\"flush\":0}]", 0, HTML, ""),
    (PAGE, b"[{\"reject\":\"u\",\"digest\":\"\"}]", 0, HTML, ""),
];

const TWICE: &[u8] = b"[{\"resolve\":\"u\",\"value\":1},{\"reject\":\"u\",\"digest\":\"\"}]";

/// Calls `fizz` over files in memory.
pub(super) fn run_fizz<R: Threads + Wait + Sync>(
    rt: &R,
    alloc: Global,
    words: &[&'static str],
    entries: Vec<(Text, Vec<u8>)>,
    fails: &Fails,
) -> Result<(u8, MemorySink, MemorySink), AllocError> {
    let mut texts = Vec::new(alloc);
    for word in words {
        texts.push(Text::fixed(*word))?;
    }
    run_texts(rt, alloc, &texts, entries, fails)
}

/// The same with words that are parted by `|`.
pub(super) fn run_words<R: Threads + Wait + Sync>(
    rt: &R,
    alloc: Global,
    words: &str,
    entries: Vec<(Text, Vec<u8>)>,
    fails: &Fails,
) -> Result<(u8, MemorySink, MemorySink), AllocError> {
    let texts = texts_of(alloc, words)?;
    run_texts(rt, alloc, &texts, entries, fails)
}

fn texts_of(alloc: Global, words: &str) -> Result<Vec<Text>, AllocError> {
    let mut texts = Vec::new(alloc);
    if words.is_empty() {
        return Ok(texts);
    }
    for word in words.split('|') {
        texts.push(text_of(alloc, word)?)?;
    }
    Ok(texts)
}

fn text_of(alloc: Global, word: &str) -> Result<Text, AllocError> {
    match Text::from_bytes(word.as_bytes().to_vec(alloc)?) {
        Ok(text) => Ok(text),
        Err(_) => Ok(Text::fixed("no text")),
    }
}

fn run_texts<R: Threads + Wait + Sync>(
    rt: &R,
    alloc: Global,
    texts: &[Text],
    entries: Vec<(Text, Vec<u8>)>,
    fails: &Fails,
) -> Result<(u8, MemorySink, MemorySink), AllocError> {
    let mut files = MemoryFiles::new(alloc, entries, fails[0].to_vec(alloc)?);
    let mut out = MemorySink::new(alloc, fails[1].to_vec(alloc)?);
    let mut notes = MemorySink::new(alloc, fails[2].to_vec(alloc)?);
    let status = fizz(
        rt, alloc, texts, &mut files, &mut out, &mut notes, &OpenGate,
    );
    Ok((status, out, notes))
}

/// The component file `a.jsx` and the script `s.json`.
pub(super) fn pair(
    alloc: Global,
    app: Vec<u8>,
    script: Vec<u8>,
) -> Result<Vec<(Text, Vec<u8>)>, AllocError> {
    let mut entries = Vec::new(alloc);
    entries.push((Text::fixed("a.jsx"), app))?;
    entries.push((Text::fixed("s.json"), script))?;
    Ok(entries)
}

#[test]
fn calls_end_with_their_status(rt: HostRuntime) -> Result<(), Fail> {
    let alloc = rt.alloc();
    for row in WORDS.iter() {
        let entries = pair(alloc, PAGE.to_vec(alloc)?, b"[]".to_vec(alloc)?)?;
        let (status, out, notes) = run_fizz(&rt, alloc, row.0, entries, &row.1)?;
        assert_eq!(rt; status, row.2);
        assert_eq!(rt; out.bytes(), row.3.as_bytes());
        assert_eq!(rt; notes.bytes(), row.4.as_bytes());
    }
    Ok(())
}

#[test]
fn files_are_rendered_or_refused(rt: HostRuntime) -> Result<(), Fail> {
    let alloc = rt.alloc();
    for row in FILES.iter() {
        let entries = pair(alloc, row.0.to_vec(alloc)?, row.1.to_vec(alloc)?)?;
        let (status, out, notes) = run_fizz(&rt, alloc, RENDER, entries, &NEVER)?;
        assert_eq!(rt; status, row.2);
        assert_eq!(rt; out.bytes(), row.3.as_bytes());
        assert_eq!(rt; notes.bytes(), row.4.as_bytes());
    }
    Ok(())
}

#[test]
fn long_files_are_refused(rt: HostRuntime) -> Result<(), Fail> {
    let alloc = rt.alloc();
    let long = vec![in alloc; b' '; 262_145]?;
    let script = b"[]".to_vec(alloc)?;
    let (status, _, notes) = run_fizz(&rt, alloc, RENDER, pair(alloc, long, script)?, &NEVER)?;
    assert_eq!(rt; status, 4);
    assert_eq!(rt; notes.bytes(), b"a.jsx: TooLong most=262144\n".as_slice());
    let long = vec![in alloc; b' '; 16_777_217]?;
    let app = PAGE.to_vec(alloc)?;
    let (status, _, notes) = run_fizz(&rt, alloc, RENDER, pair(alloc, app, long)?, &NEVER)?;
    assert_eq!(rt; status, 4);
    assert_eq!(rt;
        notes.bytes(),
        b"s.json: TooLong most=16777216\n".as_slice()
    );
    Ok(())
}

#[test]
fn a_command_is_served_on_one_thread(rt: HostRuntime) -> Result<(), Fail> {
    let alloc = rt.alloc();
    let command = Command::Render {
        app: Text::fixed("a.jsx"),
        script: Text::fixed("s.json"),
        options: Options::standard(),
        workers: 0,
    };
    let mut entries = Vec::new(alloc);
    entries.push((Text::fixed("a.jsx"), PAGE.to_vec(alloc)?))?;
    entries.push((Text::fixed("s.json"), b"[]".to_vec(alloc)?))?;
    let mut files = MemoryFiles::new(alloc, entries, Vec::new(alloc));
    let mut out = MemorySink::new(alloc, Vec::new(alloc));
    let mut notes = MemorySink::new(alloc, Vec::new(alloc));
    assert_eq!(rt;
        fizz_inline(alloc, &command, &mut files, &mut out, &mut notes),
        0
    );
    assert_eq!(rt; out.bytes(), HTML.as_bytes());
    Ok(())
}
