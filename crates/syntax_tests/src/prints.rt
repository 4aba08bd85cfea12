//! Printed files.

mod files;
mod large;
mod values;

use jsx_lex::lex;
use jsx_print::print;
use jsx_syntax::{File, parse};
use std::alloc::{AllocError, Global};

/// A text, and what its tree is printed as.
type Row = (&'static str, &'static str);

/// A line for each value that is printed in another way within its component, or that isn't read again as it was.
fn values_misprinted(alloc: Global, rows: &[Row]) -> Result<String, AllocError> {
    let mut report = String::new(alloc);
    for (value, wanted) in rows {
        let text = format!(in alloc; "function App() {{ return {value}; }}")?;
        let wanted = format!(in alloc; "function App (){{return {wanted};}}")?;
        push_misprinted(alloc, &mut report, text.as_str(), wanted.as_str())?;
    }
    Ok(report)
}

/// The same for whole files.
fn files_misprinted(alloc: Global, rows: &[Row]) -> Result<String, AllocError> {
    let mut report = String::new(alloc);
    for (text, wanted) in rows {
        push_misprinted(alloc, &mut report, text, wanted)?;
    }
    Ok(report)
}

fn push_misprinted(
    alloc: Global,
    report: &mut String,
    text: &str,
    wanted: &str,
) -> Result<(), AllocError> {
    let reading = reading_of(alloc, text)?;
    let again = reading_of(alloc, reading.printed.as_str())?;
    if reading.printed.as_str() == wanted && again.tree.as_str() == reading.tree.as_str() {
        return Ok(());
    }
    report.push_str(reading.printed.as_str())?;
    report.push_str("\n")
}

/// What a text is printed as, and its tree without places. Both are empty where it isn't read.
#[derive(Drop)]
struct Reading {
    printed: String,
    tree: String,
}

fn reading_of(alloc: Global, text: &str) -> Result<Reading, AllocError> {
    let mut reading = Reading {
        printed: String::new(alloc),
        tree: String::new(alloc),
    };
    if let Ok(tokens) = lex(alloc, text.as_bytes()) {
        if let Ok(file) = parse(alloc, &tokens, text.as_bytes()) {
            push_reading(alloc, &mut reading, &file)?;
        }
    }
    Ok(reading)
}

fn push_reading(alloc: Global, reading: &mut Reading, file: &File) -> Result<(), AllocError> {
    if let Ok(text) = print(alloc, file) {
        reading.printed.push_str(text.as_str())?;
    }
    let tree = format!(in alloc; "{file:?}")?;
    push_without_places(&mut reading.tree, tree.as_str())
}

/// Appends the text of a tree without the places of its names.
fn push_without_places(out: &mut String, tree: &str) -> Result<(), AllocError> {
    let mut is_first = true;
    for part in tree.split(", at: ") {
        if is_first {
            out.push_str(part)?;
        } else {
            out.push_str(part.trim_start_matches(|c: char| c.is_ascii_digit()))?;
        }
        is_first = false;
    }
    Ok(())
}
