//! Pages from their text on, with what a script settles.

use dom_forest::print_doc;
use fizz_text::Text;
use jsx_check::check;
use jsx_lex::lex;
use jsx_syntax::{App, parse};
use settle_script::read_script;
use settled_tree::{Forest, expand, final_of, shell_failures};
use std::alloc::Global;
use std::test::Fail;

pub(super) fn app_of(alloc: Global, text: &str) -> Result<App, Fail> {
    let tokens = lex(alloc, text.as_bytes())?;
    let file = parse(alloc, &tokens, text.as_bytes())?;
    Ok(check(alloc, file)?)
}

/// The final document, as it is printed, or the failures of the shell, each behind a `!`.
pub(super) fn document_of(alloc: Global, text: &str, script: &str) -> Result<String, Fail> {
    let app = app_of(alloc, text)?;
    let script = read_script(alloc, script.as_bytes())?;
    let outcomes = script.outcomes();
    let prefix = Text::fixed("");
    let forest = expand(alloc, &app, outcomes, outcomes.len(), &prefix)?;
    shown(alloc, &forest)
}

fn shown(alloc: Global, forest: &Forest) -> Result<String, Fail> {
    let failures = shell_failures(alloc, forest)?;
    if failures.is_empty() {
        let doc = final_of(alloc, forest)?;
        return Ok(String::from_utf8(print_doc(alloc, &doc)?)?);
    }
    let mut words = String::new(alloc);
    for digest in failures.as_slice() {
        words.push_str("!")?;
        words.push_str(digest.as_str())?;
    }
    Ok(words)
}
