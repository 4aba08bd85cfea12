//! What becomes of a component file.

use jsx_check::check;
use jsx_lex::lex;
use jsx_syntax::parse;
use std::alloc::{AllocError, Global};

/// A line for each file that is answered otherwise. A row is a file with its mark, and the fault at the mark; a file
/// without a mark is accepted.
pub(super) fn differences(alloc: Global, rows: &[(&str, &str)]) -> Result<String, AllocError> {
    let mut report = String::new(alloc);
    for (text, fault) in rows {
        push_difference(alloc, &mut report, text, fault)?;
    }
    Ok(report)
}

/// A line for each file that is refused.
pub(super) fn refusals(alloc: Global, files: &[&str]) -> Result<String, AllocError> {
    let mut report = String::new(alloc);
    for text in files {
        push_unlike(alloc, &mut report, text, "accepted")?;
    }
    Ok(report)
}

pub(super) fn push_difference(
    alloc: Global,
    report: &mut String,
    text: &str,
    fault: &str,
) -> Result<(), AllocError> {
    match text.split_once('^') {
        Some((front, rest)) => {
            let place = front.len();
            let unmarked = format!(in alloc; "{front}{rest}")?;
            let wanted = format!(in alloc; "{fault} {{ at: {place} }}")?;
            push_unlike(alloc, report, unmarked.as_str(), wanted.as_str())
        }
        None => push_unlike(alloc, report, text, fault),
    }
}

fn push_unlike(
    alloc: Global,
    report: &mut String,
    text: &str,
    wanted: &str,
) -> Result<(), AllocError> {
    let answer = answer_of(alloc, text)?;
    if answer.as_str() == wanted {
        return Ok(());
    }
    let shown = text.get(..300).unwrap_or(text);
    let line = format!(in alloc; "{answer} for {wanted}: {shown}\n")?;
    report.push_str(line.as_str())
}

/// A fault as it is printed, or `accepted`.
fn answer_of(alloc: Global, text: &str) -> Result<String, AllocError> {
    match lex(alloc, text.as_bytes()) {
        Ok(tokens) => match parse(alloc, &tokens, text.as_bytes()) {
            Ok(file) => match check(alloc, file) {
                Ok(_) => String::from_str(alloc, "accepted"),
                Err(fault) => format!(in alloc; "{fault:?}"),
            },
            Err(fault) => format!(in alloc; "{fault:?}"),
        },
        Err(fault) => format!(in alloc; "{fault:?}"),
    }
}
