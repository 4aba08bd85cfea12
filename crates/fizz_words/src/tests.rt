//! Calls by their words, parted by `|`, and what they come to: a command, `long` and the bytes of a prefix that is too
//! long, `?` and the beginning of a text that is told, or `!` and a part of what is said of a mistake.

use crate::{Command, Options, WordsFault, read_words};
use fizz_text::Text;
use std::alloc::{AllocError, Global};
use std::process::Abort;
use std::test::Fail;

static RENDERS: [(&str, &str); 40] = [
    (
        "render|a.jsx|s.json",
        "render a.jsx s.json chunk 2048 progressive 12800 workers 0 prefix []",
    ),
    (
        "render|--chunk|1|a|s",
        "render a s chunk 1 progressive 12800 workers 0 prefix []",
    ),
    (
        "render|a|--chunk=1048576|s",
        "render a s chunk 1048576 progressive 12800 workers 0 prefix []",
    ),
    (
        "render|a|s|--chunk|+7",
        "render a s chunk 7 progressive 12800 workers 0 prefix []",
    ),
    (
        "render|a|s|--chunk|0",
        "!invalid value '0' for '--chunk <N>': 0 is not in 1..=1048576",
    ),
    (
        "render|a|s|--chunk|1048577",
        "!1048577 is not in 1..=1048576",
    ),
    (
        "render|a|s|--chunk|x",
        "!invalid value 'x' for '--chunk <N>': invalid digit found in string",
    ),
    ("render|a|s|--chunk|-1", "!unexpected argument '-1' found"),
    ("render|a|s|--chunk=-1", "!-1 is not in 1..=1048576"),
    ("render|a|s|--chunk=", "!invalid value '' for '--chunk <N>'"),
    (
        "render|a|s|--chunk",
        "!a value is required for '--chunk <N>' but none was supplied",
    ),
    (
        "render|a|s|--chunk|1|--chunk|1",
        "!the argument '--chunk <N>' cannot be used multiple times",
    ),
    (
        "render|a|s|--chonk|1",
        "!a similar argument exists: '--chunk'",
    ),
    ("render|a|s|-c|1", "!unexpected argument '-c' found"),
    (
        "--chunk|1|render|a|s",
        "!unexpected argument '--chunk' found",
    ),
    (
        "render|a|s|--progressive|0",
        "render a s chunk 2048 progressive 0 workers 0 prefix []",
    ),
    (
        "render|a|s|--progressive=4294967295",
        "render a s chunk 2048 progressive 4294967295 workers 0 prefix []",
    ),
    (
        "render|a|s|--progressive|4294967296",
        "!4294967296 is not in 0..=4294967295",
    ),
    (
        "render|a|s|--progressive=-1",
        "!-1 is not in 0..=4294967295",
    ),
    (
        "render|a|s|--progressive|1e3",
        "!invalid digit found in string",
    ),
    (
        "render|a|s|--progressive",
        "!a value is required for '--progressive <N>'",
    ),
    (
        "render|a|s|--progressive|1|--progressive|2",
        "!'--progressive <N>' cannot be used multiple times",
    ),
    (
        "--progressive=1|render|a|s",
        "!unexpected argument '--progressive' found",
    ),
    (
        "render|a|s|--workers|0",
        "render a s chunk 2048 progressive 12800 workers 0 prefix []",
    ),
    ("render|a|s|--workers=1", "!1 is not in 0..=0"),
    ("render|a|s|--workers|-1", "!unexpected argument '-1' found"),
    (
        "render|a|s|--workers|many",
        "!invalid value 'many' for '--workers <N>'",
    ),
    (
        "render|a|s|--workers|0|--workers|0",
        "!'--workers <N>' cannot be used multiple times",
    ),
    (
        "render|a|s|--workers",
        "!a value is required for '--workers <N>'",
    ),
    (
        "--workers|0|render|a|s",
        "!unexpected argument '--workers' found",
    ),
    (
        "render|a|s|--chunk|5|--workers=0|--prefix|p|--progressive|9",
        "render a s chunk 5 progressive 9 workers 0 prefix [p]",
    ),
    (
        "render|a|s|--prefix|\"<'&> ",
        "render a s chunk 2048 progressive 12800 workers 0 prefix [\"<'&> ]",
    ),
    (
        "render|a|s|--prefix=a=b",
        "render a s chunk 2048 progressive 12800 workers 0 prefix [a=b]",
    ),
    (
        "render|--|-a|--chunk",
        "render -a --chunk chunk 2048 progressive 12800 workers 0 prefix []",
    ),
    ("render|a|s|t", "!unexpected argument 't' found"),
    (
        "render|a",
        "!required arguments were not provided:\n  <SCRIPT>",
    ),
    (
        "render",
        "!required arguments were not provided:\n  <APP>\n  <SCRIPT>",
    ),
    (
        "render|a|s|--prefix|--chunk|5",
        "!a value is required for '--prefix <TEXT>'",
    ),
    (
        "render|a|s|--prefix|a|--prefix|b",
        "!'--prefix <TEXT>' cannot be used multiple times",
    ),
    (
        "--prefix|a|render|a|s",
        "!unexpected argument '--prefix' found",
    ),
];

#[test]
fn renders(rt: HostRuntime) -> Result<(), Fail> {
    let report = differences(rt.alloc(), &RENDERS)?;
    assert!(&rt; report.is_empty(), "{report}");
    Ok(())
}

static OTHERS: [(&str, &str); 37] = [
    ("show|p.html", "show p.html []"),
    ("show|--prefix|x-|p.html", "show p.html [x-]"),
    ("show|p|--prefix=", "show p []"),
    (
        "show|p|--prefix|0123456789012345678901234567890123456789012345678901234567890123",
        "show p [0123456789012345678901234567890123456789012345678901234567890123]",
    ),
    (
        "show|p|--prefix|01234567890123456789012345678901234567890123456789012345678901234",
        "long 65",
    ),
    (
        "show|p|--prefix|éééééééééééééééééééééééééééééééé",
        "show p [éééééééééééééééééééééééééééééééé]",
    ),
    (
        "show|p|--prefix|ééééééééééééééééééééééééééééééééé",
        "long 66",
    ),
    (
        "show|p|--prefix|日本語日本語日本語日本語日本語日本語日本語a",
        "show p [日本語日本語日本語日本語日本語日本語日本語a]",
    ),
    ("tree|p|s|--prefix|日本語日本語日本語日本語日本語日本語日本語ab", "long 65"),
    (
        "render|a|s|--prefix=ééééééééééééééééééééééééééééééééa",
        "long 65",
    ),
    ("show", "!required arguments were not provided:\n  <FILE>"),
    ("show|a|b", "!unexpected argument 'b' found"),
    ("show|a|--chunk|5", "!unexpected argument '--chunk' found"),
    (
        "show|a|--workers|0",
        "!unexpected argument '--workers' found",
    ),
    ("tree|a|s", "tree a s []"),
    ("tree|a|--prefix|x|s", "tree a s [x]"),
    (
        "tree|a",
        "!required arguments were not provided:\n  <SCRIPT>",
    ),
    ("tree|a|s|t", "!unexpected argument 't' found"),
    (
        "tree|a|s|--workers|0",
        "!unexpected argument '--workers' found",
    ),
    ("gen|0|1", "gen 0 1 workers 0"),
    (
        "gen|9223372036854775807|50000|--workers|0",
        "gen 9223372036854775807 50000 workers 0",
    ),
    (
        "gen|9223372036854775808|1",
        "!9223372036854775808 is not in 0..=9223372036854775807",
    ),
    (
        "gen|18446744073709551616|1",
        "!number too large to fit in target type",
    ),
    (
        "gen|1|0",
        "!invalid value '0' for '<SIZE>': 0 is not in 1..=50000",
    ),
    ("gen|1|50001", "!50001 is not in 1..=50000"),
    (
        "gen|x|1",
        "!invalid value 'x' for '<SEED>': invalid digit found in string",
    ),
    ("gen|-1|5", "!unexpected argument '-1' found"),
    ("gen|1|2|--workers=1", "!1 is not in 0..=0"),
    ("gen|7", "!required arguments were not provided:\n  <SIZE>"),
    ("gen|1|2|3", "!unexpected argument '3' found"),
    (
        "gen|1|2|--prefix|x",
        "!unexpected argument '--prefix' found",
    ),
    ("", "!'fizz' requires a subcommand but one was not provided"),
    ("rendr|a|s", "!a similar subcommand exists: 'render'"),
    ("rendr|a|s", "!unrecognized subcommand 'rendr'"),
    (
        "page.jsx|script.json",
        "!unrecognized subcommand 'page.jsx'",
    ),
    ("help", "!unrecognized subcommand 'help'"),
    ("--verbose|show|p", "!unexpected argument '--verbose' found"),
];

#[test]
fn other_commands(rt: HostRuntime) -> Result<(), Fail> {
    let report = differences(rt.alloc(), &OTHERS)?;
    assert!(&rt; report.is_empty(), "{report}");
    Ok(())
}

static TOLD: [(&str, &str); 16] = [
    (
        "--help",
        "?Renders pages of components as streams of HTML\n\nUsage: fizz <COMMAND>\n",
    ),
    ("-h", "?Renders pages of components as streams of HTML\n"),
    (
        "--help|rendr",
        "?Renders pages of components as streams of HTML\n",
    ),
    (
        "render|--help",
        "?Renders a page to standard output, as its script settles it\n\nUsage: fizz render [OPTIONS] <APP> <SCRIPT>\n",
    ),
    ("render|a|--help|s|t", "?Renders a page to standard output"),
    (
        "show|--help",
        "?Runs a rendered page, and prints the document that it settles to\n\nUsage: fizz show [OPTIONS] <FILE>\n",
    ),
    (
        "tree|--help",
        "?Prints the document that a page shows in the end, without rendering it\n\nUsage: fizz tree [OPTIONS] <APP> <SCRIPT>\n",
    ),
    (
        "gen|--help",
        "?Renders a generated program, and prints one line on it\n\nUsage: fizz gen [OPTIONS] <SEED> <SIZE>\n",
    ),
    ("--version", "?fizz 0.1.0\n"),
    ("-V", "?fizz 0.1.0\n"),
    ("render|--version", "?fizz 0.1.0\n"),
    ("show|--version", "?fizz 0.1.0\n"),
    ("tree|a|--version", "?fizz 0.1.0\n"),
    ("gen|--version", "?fizz 0.1.0\n"),
    ("render|a|s|--chunk|0|--help", "!0 is not in 1..=1048576"),
    (
        "render|a|s|--help=x",
        "!unexpected value 'x' for '--help' found",
    ),
];

#[test]
fn help_and_version(rt: HostRuntime) -> Result<(), Fail> {
    let report = differences(rt.alloc(), &TOLD)?;
    assert!(&rt; report.is_empty(), "{report}");
    Ok(())
}

/// The help of a command shows how it is called.
#[test]
fn help_has_examples(rt: HostRuntime) -> Result<(), Fail> {
    let render = outcome(rt.alloc(), "render|--help")?;
    assert!(&rt;
        render
            .as_str()
            .contains("fizz render page.jsx script.json > page.html"),
        "{render}"
    );
    let show = outcome(rt.alloc(), "show|--help")?;
    assert!(&rt; show.as_str().contains("fizz show page.html"), "{show}");
    let tree = outcome(rt.alloc(), "tree|--help")?;
    assert!(&rt;
        tree.as_str().contains("fizz tree page.jsx script.json"),
        "{tree}"
    );
    let generated = outcome(rt.alloc(), "gen|--help")?;
    assert!(&rt;
        generated.as_str().contains("fizz gen 7 1000"),
        "{generated}"
    );
    Ok(())
}

/// A line for each call that comes to something else.
fn differences(alloc: Global, rows: &[(&str, &str)]) -> Result<String, AllocError> {
    let mut report = String::new(alloc);
    for (words, wanted) in rows {
        push_difference(alloc, &mut report, words, wanted)?;
    }
    Ok(report)
}

fn push_difference(
    alloc: Global,
    report: &mut String,
    words: &str,
    wanted: &str,
) -> Result<(), AllocError> {
    let found = outcome(alloc, words)?;
    if fits(found.as_str(), wanted) {
        return Ok(());
    }
    let line = format!(in alloc; "{words}: {found}\n")?;
    report.push_str(line.as_str())
}

fn fits(found: &str, wanted: &str) -> bool {
    if let Some(part) = wanted.strip_prefix('!') {
        return found.starts_with('!') && found.contains(part);
    }
    if wanted.starts_with('?') {
        return found.starts_with(wanted);
    }
    found == wanted
}

fn outcome(alloc: Global, line: &str) -> Result<String, AllocError> {
    let words = words_of(alloc, line)?;
    match read_words(alloc, words.as_slice()) {
        Ok(command) => shown(alloc, &command),
        Err(WordsFault::Usage { text }) => joined(alloc, "!", text.as_str()),
        Err(WordsFault::Told { text }) => joined(alloc, "?", text.as_str()),
        Err(WordsFault::PrefixTooLong { length }) => format!(in alloc; "long {length}"),
        Err(WordsFault::OutOfMemory) => String::from_str(alloc, "no memory"),
    }
}

fn joined(alloc: Global, mark: &str, text: &str) -> Result<String, AllocError> {
    format!(in alloc; "{mark}{text}")
}

fn words_of(alloc: Global, line: &str) -> Result<Vec<Text>, AllocError> {
    let mut words = Vec::new(alloc);
    if line.is_empty() {
        return Ok(words);
    }
    for part in line.split('|') {
        words.push(text_of(alloc, part)?)?;
    }
    Ok(words)
}

fn text_of(alloc: Global, part: &str) -> Result<Text, AllocError> {
    match Text::from_bytes(Vec::from_slice(alloc, part.as_bytes())?) {
        Ok(text) => Ok(text),
        Err(_) => Ok(Text::fixed("no text")),
    }
}

fn shown(alloc: Global, command: &Command) -> Result<String, AllocError> {
    match command {
        Command::Render {
            app,
            script,
            options,
            workers,
        } => {
            let names = pair(alloc, "render", app, script)?;
            let rest = options_shown(alloc, options, *workers)?;
            joined(alloc, names.as_str(), rest.as_str())
        }
        Command::Show { file, prefix } => {
            let file = file.as_str();
            let prefix = prefix.as_str();
            format!(in alloc; "show {file} [{prefix}]")
        }
        Command::Tree {
            app,
            script,
            prefix,
        } => {
            let names = pair(alloc, "tree", app, script)?;
            let prefix = prefix.as_str();
            format!(in alloc; "{names} [{prefix}]")
        }
        Command::Gen {
            seed,
            size,
            workers,
        } => format!(in alloc; "gen {seed} {size} workers {workers}"),
    }
}

fn pair(alloc: Global, name: &str, app: &Text, script: &Text) -> Result<String, AllocError> {
    let app = app.as_str();
    let script = script.as_str();
    format!(in alloc; "{name} {app} {script}")
}

fn options_shown(alloc: Global, options: &Options, workers: u32) -> Result<String, AllocError> {
    let prefix = options.prefix.as_str();
    let chunk = options.chunk;
    let progressive = options.progressive;
    format!(in alloc;
        " chunk {chunk} progressive {progressive} workers {workers} prefix [{prefix}]"
    )
}
