//! Small pages with their weights, forests, failures and final documents. Trees are built by hand, as the source beside
//! each spells them.

mod pages;
mod shown;

use crate::{Forest, expand, final_of, shell_failures};
use dom_forest::print_doc;
use fizz_text::Text;
use jsx_check::check;
use jsx_syntax::{App, File};
use jsx_value::{WeighRefused, weigh};
use pages::{failing_shell, nested_boundaries, one_boundary, values};
use settle_script::{Outcomes, read_script};
use shown::forest_in_words;
use std::alloc::Global;
use std::test::Fail;

fn app_of(alloc: Global, file: File) -> Result<App, Fail> {
    Ok(check(alloc, file)?)
}

/// The page's weight and its forest, the failures of its shell, each after a `!`, and its final document if there is
/// none.
fn page_in_words(alloc: Global, file: File, script: &str, settled: u32) -> Result<String, Fail> {
    let app = app_of(alloc, file)?;
    let script = read_script(alloc, script.as_bytes())?;
    let mut words = weight_in_words(alloc, &app, script.outcomes(), settled)?;
    let prefix = Text::fixed("");
    let forest = expand(alloc, &app, script.outcomes(), settled, &prefix)?;
    words.push_str(forest_in_words(alloc, &forest)?.as_str())?;
    words.push_str(shell_in_words(alloc, &forest)?.as_str())?;
    Ok(words)
}

fn weight_in_words(
    alloc: Global,
    app: &App,
    outcomes: &Outcomes,
    settled: u32,
) -> Result<String, Fail> {
    let prefix = Text::fixed("");
    let weight = weigh(alloc, app, outcomes, settled, &prefix)?;
    Ok(format!(in alloc; "{weight} ")?)
}

fn shell_in_words(alloc: Global, forest: &Forest) -> Result<String, Fail> {
    let failures = shell_failures(alloc, forest)?;
    let mut words = String::from_str(alloc, " ")?;
    for digest in failures.as_slice() {
        words.push_str("!")?;
        words.push_str(digest.as_str())?;
    }
    if failures.is_empty() {
        let doc = final_of(alloc, forest)?;
        let html = String::from_utf8(print_doc(alloc, &doc)?)?;
        words.push_str(html.as_str())?;
    }
    Ok(words)
}

/// A page by its number, a script, how many of its settlements are known, and what the page is.
static PAGES: [(u32, &str, u32, &str); 12] = [
    (0, "[]", 0, "10 (B (W/0 u)(i('wait'))) <i>wait</i>"),
    (
        0,
        "[{\"resolve\":\"u\",\"value\":\"x\"}]",
        0,
        "10 (B (W/0 u)(i('wait'))) <i>wait</i>",
    ),
    (
        0,
        "[{\"resolve\":\"u\",\"value\":\"x\"}]",
        1,
        "12 (B (p('x'))(i('wait'))) <p>x</p>",
    ),
    (
        0,
        "[{\"reject\":\"u\",\"digest\":\"e1\"}]",
        1,
        "12 (B (F e1)(i('wait'))) <i>wait</i>",
    ),
    (
        1,
        "[]",
        0,
        "13 (div(B/0 (W/0/0 u)(i('wait'))W/1 u)) !unsettled",
    ),
    (
        1,
        "[{\"resolve\":\"u\",\"value\":1}]",
        1,
        "17 (div(B/0 (F s1)(i('wait'))F s1)) !s1",
    ),
    (
        1,
        "[{\"reject\":\"u\",\"digest\":\"e1\"}]",
        1,
        "17 (div(B/0 (F e1)(i('wait'))F e1)) !e1",
    ),
    (
        2,
        "[]",
        0,
        "22 (B (B/0/0 (F s1)(i('wait'))'a')(i('wait'))) <i>wait</i>a",
    ),
    (
        3,
        "[{\"resolve\":\"u\",\"value\":[1,[\"\",\"b\"],null,true,{\"c\":2}]}]",
        1,
        "14 ('1''b') 1<!-- -->b",
    ),
    (3, "[{\"resolve\":\"u\",\"value\":-12}]", 1, "8 ('-12') -12"),
    (3, "[{\"resolve\":\"u\",\"value\":{\"a\":1}}]", 1, "5 () "),
    (3, "[]", 0, "5 (W/1 u) !unsettled"),
];

fn page(alloc: Global, number: u32) -> Result<File, Fail> {
    match number {
        0 => one_boundary(alloc),
        1 => failing_shell(alloc),
        2 => nested_boundaries(alloc),
        _ => values(alloc),
    }
}

#[test]
fn small_pages(rt: HostRuntime) -> Result<(), Fail> {
    for (number, script, settled, words) in PAGES.iter() {
        let found = page_in_words(rt.alloc(), page(rt.alloc(), *number)?, script, *settled)?;
        assert!(rt; found.as_str() == *words, "{found} of {script}");
    }
    Ok(())
}

/// A text of 7,999,990 letters in a page that weighs 11 beside it.
#[test]
fn too_large(rt: HostRuntime) -> Result<(), Fail> {
    let alloc = rt.alloc();
    let mut script = String::from_str(alloc, "[{\"resolve\":\"u\",\"value\":\"")?;
    for _ in 0..799_999u32 {
        script.push_str("aaaaaaaaaa")?;
    }
    script.push_str("\"}]")?;
    let script = read_script(alloc, script.as_bytes())?;
    let app = app_of(alloc, one_boundary(alloc)?)?;
    let prefix = Text::fixed("");
    match expand(alloc, &app, script.outcomes(), 1, &prefix) {
        Err(WeighRefused::TooLarge { limit }) => assert_eq!(rt; limit, 8_000_000),
        _ => panic!(rt; "the page weighs 8,000,001"),
    }
    Ok(())
}
