//! What pages are made of, from their text on.

ghost use Rattle.std.specs.Prelude.{◌≤◌, length};
ghost use Rattle.fizz_piece.specs.Plans.{longest_prefix};

use fizz_piece::{Options, Plan};
use fizz_text::Text;
use jsx_check::check;
use jsx_lex::lex;
use jsx_syntax::{App, parse};
use settle_script::{Script, read_script};
use settled_tree::{Forest, expand};
use std::alloc::Global;
use std::test::Fail;

/// A component file, what its resources come to, and how it is rendered.
#[derive(Drop)]
pub(super) struct Source {
    pub(super) app: App,
    pub(super) script: Script,
    pub(super) options: Options,
    ghost short_prefix: { length options.prefix ≤ longest_prefix },
    ghost some_chunk: { 1 ≤ options.chunk },
}

/// The source of a page, from the texts of its component file and its script.
pub(super) fn source_of(
    alloc: Global,
    text: &str,
    script: &str,
    progressive: u32,
) -> Result<Source, Fail> {
    let app = app_of(alloc, text)?;
    let script = read_script(alloc, script.as_bytes())?;
    Ok(Source {
        app,
        script,
        options: options_of(progressive),
    })
}

fn app_of(alloc: Global, text: &str) -> Result<App, Fail> {
    let tokens = lex(alloc, text.as_bytes())?;
    let file = parse(alloc, &tokens, text.as_bytes())?;
    Ok(check(alloc, file)?)
}

fn options_of(progressive: u32) -> Options
    ensures short { length result.prefix ≤ longest_prefix }
    ensures some { 1 ≤ result.chunk }
{
    Options {
        prefix: Text::fixed(""),
        progressive,
        chunk: 2_048,
    }
}

pub(super) fn plan_of<'a>(alloc: Global, source: &'a Source) -> Result<Plan<'a>, Fail> {
    match Plan::new(
        alloc,
        &source.app,
        source.script.outcomes(),
        &source.options,
    ) {
        Ok(plan) => Ok(plan),
        Err(_) => Err(Fail::from("the page is too heavy")),
    }
}

/// The tree of a page in which all of its script is settled.
pub(super) fn forest_of(alloc: Global, source: &Source) -> Result<Forest, Fail> {
    let outcomes = source.script.outcomes();
    Ok(expand(
        alloc,
        &source.app,
        outcomes,
        outcomes.len(),
        &source.options.prefix,
    )?)
}
