//! Calls by their words.

use super::calls::{HTML, NEVER, PAGE, run_words};
use fizz_text::Text;
use std::alloc::{AllocError, Global};
use std::process::Abort;
use std::sync::Wait;
use std::test::Fail;
use std::thread::Threads;

/// Words, parted by `|`; the status; and the output and the note, or a part of them behind `~`.
type Row = (&'static str, u8, &'static str, &'static str);

/// Calls over a component file `a`, a script `s` and a page file `f`.
static ROWS: [Row; 76] = [
    ("render|a|s", 0, HTML, ""),
    ("render|--chunk|1|a|s", 0, HTML, ""),
    ("render|a|--chunk=1048576|s", 0, HTML, ""),
    ("render|a|s|--chunk|+7", 0, HTML, ""),
    (
        "render|a|s|--chunk|0",
        2,
        "",
        "~invalid value '0' for '--chunk <N>': 0 is not in 1..=1048576",
    ),
    (
        "render|a|s|--chunk|1048577",
        2,
        "",
        "~1048577 is not in 1..=1048576",
    ),
    (
        "render|a|s|--chunk|x",
        2,
        "",
        "~invalid value 'x' for '--chunk <N>': invalid digit found in string",
    ),
    (
        "render|a|s|--chunk|-1",
        2,
        "",
        "~unexpected argument '-1' found",
    ),
    (
        "render|a|s|--chunk=",
        2,
        "",
        "~invalid value '' for '--chunk <N>'",
    ),
    (
        "render|a|s|--chunk",
        2,
        "",
        "~a value is required for '--chunk <N>' but none was supplied",
    ),
    (
        "render|a|s|--chunk|1|--chunk|1",
        2,
        "",
        "~the argument '--chunk <N>' cannot be used multiple times",
    ),
    (
        "render|a|s|--chonk|1",
        2,
        "",
        "~a similar argument exists: '--chunk'",
    ),
    (
        "--chunk|1|render|a|s",
        2,
        "",
        "~unexpected argument '--chunk' found",
    ),
    ("render|a|s|--progressive|0", 0, HTML, ""),
    ("render|a|s|--progressive=4294967295", 0, HTML, ""),
    (
        "render|a|s|--progressive|4294967296",
        2,
        "",
        "~4294967296 is not in 0..=4294967295",
    ),
    (
        "render|a|s|--progressive|1e3",
        2,
        "",
        "~invalid digit found in string",
    ),
    (
        "render|a|s|--progressive",
        2,
        "",
        "~a value is required for '--progressive <N>'",
    ),
    (
        "render|a|s|--progressive|1|--progressive|2",
        2,
        "",
        "~'--progressive <N>' cannot be used multiple times",
    ),
    (
        "--progressive=1|render|a|s",
        2,
        "",
        "~unexpected argument '--progressive' found",
    ),
    ("render|a|s|--workers|0", 0, HTML, ""),
    ("render|a|s|--workers=1", 2, "", "~1 is not in 0..=0"),
    (
        "render|a|s|--workers|many",
        2,
        "",
        "~invalid value 'many' for '--workers <N>'",
    ),
    (
        "render|a|s|--workers|0|--workers|0",
        2,
        "",
        "~'--workers <N>' cannot be used multiple times",
    ),
    (
        "render|a|s|--workers",
        2,
        "",
        "~a value is required for '--workers <N>'",
    ),
    (
        "--workers|0|render|a|s",
        2,
        "",
        "~unexpected argument '--workers' found",
    ),
    (
        "render|a|s|--prefix|0123456789012345678901234567890123456789012345678901234567890123",
        0,
        HTML,
        "",
    ),
    (
        "render|a|s|--prefix|01234567890123456789012345678901234567890123456789012345678901234",
        2,
        "",
        "prefix too long\n",
    ),
    ("render|a|s|--prefix|\"<'&> ", 0, HTML, ""),
    ("render|a|s|--prefix=a=b", 0, HTML, ""),
    (
        "render|a|s|--chunk|5|--workers=0|--prefix|p|--progressive|9",
        0,
        HTML,
        "",
    ),
    (
        "render|a|s|--prefix|a|--prefix|b",
        2,
        "",
        "~'--prefix <TEXT>' cannot be used multiple times",
    ),
    (
        "render|a|s|--prefix|--chunk|5",
        2,
        "",
        "~a value is required for '--prefix <TEXT>'",
    ),
    (
        "--prefix|a|render|a|s",
        2,
        "",
        "~unexpected argument '--prefix' found",
    ),
    ("render|a|s|t", 2, "", "~unexpected argument 't' found"),
    (
        "render|a",
        2,
        "",
        "~required arguments were not provided:\n  <SCRIPT>",
    ),
    (
        "render",
        2,
        "",
        "~required arguments were not provided:\n  <APP>\n  <SCRIPT>",
    ),
    ("render|--|a|s", 0, HTML, ""),
    ("render|b|s", 3, "", "cannot read b\n"),
    ("render|a|t", 3, "", "cannot read t\n"),
    ("show|f", 0, "<p>x</p>", ""),
    ("show|--prefix|x-|f", 0, "<p>x</p>", ""),
    (
        "show|f|--prefix=éééééééééééééééééééééééééééééééé",
        0,
        "<p>x</p>",
        "",
    ),
    (
        "show|f|--prefix|ééééééééééééééééééééééééééééééééé",
        2,
        "",
        "prefix too long\n",
    ),
    (
        "show",
        2,
        "",
        "~required arguments were not provided:\n  <FILE>",
    ),
    ("show|a|f", 2, "", "~unexpected argument 'f' found"),
    (
        "show|f|--chunk|5",
        2,
        "",
        "~unexpected argument '--chunk' found",
    ),
    ("show|g", 3, "", "cannot read g\n"),
    ("tree|a|s", 0, HTML, ""),
    ("tree|a|--prefix|x|s", 0, HTML, ""),
    (
        "tree|a|s|--prefix|日本語日本語日本語日本語日本語日本語日本語ab",
        2,
        "",
        "prefix too long\n",
    ),
    (
        "tree|a|s|--workers|0",
        2,
        "",
        "~unexpected argument '--workers' found",
    ),
    ("tree|a|s|t", 2, "", "~unexpected argument 't' found"),
    (
        "gen|0|1",
        0,
        "boundaries 1 failed 0 texts 1 document 43\n",
        "",
    ),
    (
        "gen|9223372036854775807|1|--workers|0",
        0,
        "boundaries 1 failed 0 texts 1 document 43\n",
        "",
    ),
    (
        "gen|9223372036854775808|1",
        2,
        "",
        "~9223372036854775808 is not in 0..=9223372036854775807",
    ),
    (
        "gen|1|0",
        2,
        "",
        "~invalid value '0' for '<SIZE>': 0 is not in 1..=50000",
    ),
    ("gen|1|50001", 2, "", "~50001 is not in 1..=50000"),
    (
        "gen|x|1",
        2,
        "",
        "~invalid value 'x' for '<SEED>': invalid digit found in string",
    ),
    (
        "gen|7",
        2,
        "",
        "~required arguments were not provided:\n  <SIZE>",
    ),
    (
        "gen|1|2|--prefix|x",
        2,
        "",
        "~unexpected argument '--prefix' found",
    ),
    (
        "",
        2,
        "",
        "~'fizz' requires a subcommand but one was not provided",
    ),
    ("rendr|a|s", 2, "", "~a similar subcommand exists: 'render'"),
    ("a|s", 2, "", "~unrecognized subcommand 'a'"),
    ("help", 2, "", "~unrecognized subcommand 'help'"),
    (
        "--verbose|show|f",
        2,
        "",
        "~unexpected argument '--verbose' found",
    ),
    ("--help", 0, "~Usage: fizz <COMMAND>\n", ""),
    ("-h", 0, "~Usage: fizz <COMMAND>\n", ""),
    (
        "render|--help",
        0,
        "~fizz render page.jsx script.json > page.html",
        "",
    ),
    ("show|--help", 0, "~Usage: fizz show [OPTIONS] <FILE>\n", ""),
    (
        "tree|a|--help",
        0,
        "~Usage: fizz tree [OPTIONS] <APP> <SCRIPT>\n",
        "",
    ),
    (
        "gen|--help",
        0,
        "~Usage: fizz gen [OPTIONS] <SEED> <SIZE>\n",
        "",
    ),
    ("--version", 0, "fizz 0.1.0\n", ""),
    ("render|--version", 0, "fizz 0.1.0\n", ""),
    ("gen|-V", 0, "fizz 0.1.0\n", ""),
    (
        "render|a|s|--chunk|0|--help",
        2,
        "",
        "~0 is not in 1..=1048576",
    ),
];

fn files_of(alloc: Global) -> Result<Vec<(Text, Vec<u8>)>, AllocError> {
    let mut entries = Vec::new(alloc);
    entries.push((Text::fixed("a"), PAGE.to_vec(alloc)?))?;
    entries.push((Text::fixed("s"), b"[]".to_vec(alloc)?))?;
    entries.push((Text::fixed("f"), b"<p>x</p>".to_vec(alloc)?))?;
    Ok(entries)
}

/// Whether bytes are the text, or hold what stands behind `~`.
pub(super) fn fits(found: &[u8], wanted: &str) -> bool {
    match wanted.strip_prefix('~') {
        Some(part) => holds(found, part),
        None => found == wanted.as_bytes(),
    }
}

fn holds(found: &[u8], part: &str) -> bool {
    match str::from_utf8(found) {
        Ok(text) => text.contains(part),
        Err(_) => false,
    }
}

fn check_row<R: Abort + Threads + Wait + Sync>(
    rt: &R,
    alloc: Global,
    row: &Row,
) -> Result<(), Fail> {
    let words = row.0;
    let (status, out, notes) = run_words(rt, alloc, words, files_of(alloc)?, &NEVER)?;
    assert!(rt; status == row.1, "{words}: {status}");
    assert!(rt; fits(out.bytes(), row.2), "{words}");
    assert!(rt; fits(notes.bytes(), row.3), "{words}");
    Ok(())
}

#[test]
fn words_are_answered(rt: HostRuntime) -> Result<(), Fail> {
    let alloc = rt.alloc();
    for row in ROWS.iter() {
        check_row(&rt, alloc, row)?;
    }
    Ok(())
}

/// A failing output or note ends with 7, and nothing of the text is there.
#[test]
fn texts_that_cannot_be_written_end_with_7(rt: HostRuntime) -> Result<(), Fail> {
    let alloc = rt.alloc();
    let fails: [&'static [u32]; 3] = [&[], &[0], &[]];
    let (status, out, notes) = run_words(&rt, alloc, "--help", files_of(alloc)?, &fails)?;
    assert_eq!(rt; status, 7);
    assert_eq!(rt; out.bytes(), b"".as_slice());
    assert_eq!(rt; notes.bytes(), b"".as_slice());
    let fails: [&'static [u32]; 3] = [&[], &[], &[0]];
    let (status, out, notes) = run_words(&rt, alloc, "rendr", files_of(alloc)?, &fails)?;
    assert_eq!(rt; status, 7);
    assert_eq!(rt; out.bytes(), b"".as_slice());
    assert_eq!(rt; notes.bytes(), b"".as_slice());
    let fails: [&'static [u32]; 3] = [&[], &[0], &[]];
    let (status, out, _) = run_words(&rt, alloc, "gen|0|1", files_of(alloc)?, &fails)?;
    assert_eq!(rt; status, 7);
    assert_eq!(rt; out.bytes(), b"".as_slice());
    Ok(())
}
