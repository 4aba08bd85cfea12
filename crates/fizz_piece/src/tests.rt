//! The pieces of small pages. Trees are built by hand, as the source beside each spells them.

ghost use Rattle.std.specs.Prelude.{◌≡◌, ◌≤◌, length};
ghost use Rattle.fizz_piece.specs.Pieces.{IsGoodWork};
ghost use Rattle.fizz_piece.specs.Plans.{longest_prefix};

mod pages;
mod shown;

use crate::{Flags, Options, Piece, PieceMemory, Plan, Work, render_piece};
use fizz_text::{Path, Text};
use jsx_check::check;
use jsx_syntax::{App, File};
use jsx_value::{Scope, Spot};
use pages::page;
use settle_script::read_script;
use shown::piece_in_words;
use std::alloc::Global;
use std::test::Fail;

fn app_of(alloc: Global, file: File) -> Result<App, Fail> {
    Ok(check(alloc, file)?)
}

/// The work of a whole page.
fn root_work<'a>(alloc: Global, plan: &Plan<'a>, settled: u32, flags: Flags) -> Work<'a>
    requires { settled ≤ length plan.now.outcomes.now }
    ensures good { IsGoodWork plan.now result }
    ensures settled { result.settled ≡ settled }
{
    Work {
        task: 0,
        claim: 0,
        path: Path::new(alloc),
        spot: Spot::Root,
        scope: Scope::empty(alloc),
        settled,
        flags,
    }
}

/// A page by its number, its script, whether a text stands before it, and in words what the whole page comes to.
static PIECES: [(u32, &str, bool, &str); 13] = [
    (0, "[]", false, "waits for u"),
    (
        0,
        "[{\"resolve\":\"u\",\"value\":\"x\"}]",
        false,
        "x<!-- -->",
    ),
    (
        0,
        "[{\"resolve\":\"u\",\"value\":\"x\"}]",
        true,
        "<!-- -->x<!-- -->",
    ),
    (0, "[{\"resolve\":\"u\",\"value\":\"\"}]", false, ""),
    (
        0,
        "[{\"resolve\":\"u\",\"value\":1}]",
        false,
        "fails with one",
    ),
    (
        0,
        "[{\"reject\":\"u\",\"digest\":\"e\"}]",
        false,
        "fails with e",
    ),
    (1, "[]", false, "<p>ab</p> hole 4 /1 u after a text"),
    (
        1,
        "[{\"resolve\":\"u\",\"value\":\"x\"}]",
        false,
        "<p>a<!-- -->x<!-- -->b</p>",
    ),
    (
        1,
        "[{\"resolve\":\"u\",\"value\":null}]",
        true,
        "<p>a<!-- -->b</p>",
    ),
    (2, "[]", false, "<div>a<br/></div> boundary 6 /1"),
    (
        2,
        "[{\"resolve\":\"u\",\"value\":1}]",
        false,
        "<div>a<br/></div> boundary 6 /1",
    ),
    (3, "[]", false, "a&lt;b<!-- -->"),
    (3, "[]", true, "<!-- -->a&lt;b<!-- -->"),
];

fn whole_page_in_words(
    alloc: Global,
    file: File,
    script: &str,
    prefix: &'static str,
    flags: Flags,
) -> Result<String, Fail>
    requires { length prefix.now ≤ longest_prefix }
{
    let app = app_of(alloc, file)?;
    let script = read_script(alloc, script.as_bytes())?;
    let options = Options {
        prefix: Text::fixed(prefix),
        progressive: 12_800,
        chunk: 2_048,
    };
    let Ok(plan) = Plan::new(alloc, &app, script.outcomes(), &options) else {
        return Err(fizz_text::OutOfMemory.into());
    };
    let work = root_work(alloc, &plan, script.outcomes().len(), flags);
    match render_piece(alloc, &plan, work) {
        Ok(piece) => piece_in_words(alloc, &piece),
        Err(PieceMemory { .. }) => Err(fizz_text::OutOfMemory.into()),
    }
}

#[test]
fn small_pages(rt: HostRuntime) -> Result<(), Fail> {
    for (number, script, lead, words) in PIECES.iter() {
        let flags = Flags {
            lead: *lead,
            embedded: true,
        };
        let found = whole_page_in_words(rt.alloc(), page(rt.alloc(), *number)?, script, "", flags)?;
        assert!(rt; found.as_str() == *words, "{found} of {script}");
    }
    Ok(())
}

/// Behind a page there is no text.
#[test]
fn a_whole_page_ends_without_a_separator(rt: HostRuntime) -> Result<(), Fail> {
    let flags = Flags {
        lead: false,
        embedded: false,
    };
    let found = whole_page_in_words(rt.alloc(), page(rt.alloc(), 3)?, "[]", "", flags)?;
    assert!(rt; found.as_str() == "a&lt;b", "{found}");
    Ok(())
}
