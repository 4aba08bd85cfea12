//! Pages that nest about as deep as they are long.

use super::calls::{NEVER, run_words};
use super::options::repeated;
use super::renders::RS;
use fizz_outside::MemorySink;
use fizz_text::Text;
use std::alloc::{AllocError, Global};
use std::sync::Wait;
use std::test::Fail;
use std::thread::Threads;

/// What `show` says of a page.
fn shown<R: Threads + Wait + Sync>(
    rt: &R,
    alloc: Global,
    page: String,
) -> Result<(u8, MemorySink, MemorySink), AllocError> {
    let mut entries = Vec::new(alloc);
    entries.push((Text::fixed("f"), page.into_bytes()))?;
    run_words(rt, alloc, "show|f", entries, &NEVER)
}

/// A marker, how often it stands, and the status and the note of `show`.
static MARKERS: [(&str, usize, u8, &str); 3] = [
    ("<!--$-->", 60_000, 0, ""),
    ("<!--$?-->", 100_000, 4, "f: StillPending count=100000\n"),
    ("<!--$-->", 1_000_000, 0, ""),
];

#[test]
fn boundaries_nest_without_end(rt: HostRuntime) -> Result<(), Fail> {
    let alloc = rt.alloc();
    for (marker, times, wanted, note) in MARKERS.iter() {
        let (status, out, notes) = shown(&rt, alloc, repeated(alloc, marker, *times)?)?;
        assert_eq!(rt; out.bytes(), b"".as_slice());
        assert_eq!(rt; notes.bytes(), note.as_bytes());
        assert_eq!(rt; status, *wanted);
    }
    Ok(())
}

/// How many containers there are.
const CONTAINERS: u32 = 120;

/// How many `<b>` a container holds, each in the one before.
const NESTED: usize = 508;

/// A placeholder, and containers that hold nested elements around the next placeholder, each moved into its own.
fn moved_containers(alloc: Global) -> Result<String, AllocError> {
    let starts = repeated(alloc, "<b>", NESTED)?;
    let ends = repeated(alloc, "</b>", NESTED)?;
    let mut page = String::from_str(alloc, "<template id=\"P:0\"></template>")?;
    for number in 0..CONTAINERS {
        let function = if number == 0 { RS } else { "" };
        let next = number + 1;
        let part = format!(in alloc;
            "<div hidden id=\"S:{number:x}\">{starts}<template id=\"P:{next:x}\"></template>{ends}</div><script>{function}$RS(\"S:{number:x}\",\"P:{number:x}\")</script>"
        )?;
        page.push_str(part.as_str())?;
    }
    Ok(page)
}

#[test]
fn moved_containers_nest_without_end(rt: HostRuntime) -> Result<(), Fail> {
    let alloc = rt.alloc();
    let (status, out, notes) = shown(&rt, alloc, moved_containers(alloc)?)?;
    let mut document = repeated(alloc, "<b>", NESTED * CONTAINERS as usize)?;
    document.push_str(repeated(alloc, "</b>", NESTED * CONTAINERS as usize)?.as_str())?;
    assert_eq!(rt; notes.bytes(), b"".as_slice());
    assert_eq!(rt; status, 0);
    assert_eq!(rt; out.bytes(), document.as_bytes());
    Ok(())
}
