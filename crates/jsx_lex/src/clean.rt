//! The layout of the source in the text between tags.

ghost use Rattle.std.specs.Prelude.{◌≡◌, OnOk, IfOk, if◌then◌else◌};
ghost use Rattle.jsx_lex.specs.Cleaning.{clean_text, without_leading_blanks, without_trailing_blanks};
ghost use Rattle.jsx_lex.specs.LineJoining.{with_line};

use crate::characters::{Class, is_blank, run_len};
use std::alloc::{AllocError, Global};

/// The text without the line breaks and blanks that only lay out the source.
pub(crate) fn clean(alloc: Global, text: &[u8]) -> Result<Vec<u8>, AllocError>
    ensures { IfOk result (λ v. v.items ≡ clean_text text.now) }
{
    let mut out = Vec::new(alloc);
    let mut rest = text;
    let mut is_first = true;
    'lines: loop {
        let (whole, after) = rest.split_at(run_len(rest, Class::InLine));
        let line = line_start(is_first, whole);
        let Some((_, more)) = after.split_first() else {
            push_line(&mut out, line)?;
            return Ok(out);
        };
        push_line(&mut out, trim_end(line))?;
        rest = more;
        is_first = false;
    }
}

/// The line without its leading blanks, unless it is the first.
fn line_start(is_first: bool, line: &[u8]) -> &[u8]
    ensures { result.now ≡ (if is_first then line.now else without_leading_blanks line.now) }
{
    if is_first { line } else { trim_start(line) }
}

fn trim_start(line: &[u8]) -> &[u8]
    ensures { result.now ≡ without_leading_blanks line.now }
{
    line.split_at(run_len(line, Class::Blank)).1
}

fn trim_end(line: &[u8]) -> &[u8]
    ensures { result.now ≡ without_trailing_blanks line.now }
{
    let mut end = line.len();
    'blanks: while end > 0 && is_blank(line[end - 1]) {
        end -= 1;
    }
    line.split_at(end).0
}

/// Puts a line at the end, after a space, unless it is empty or the first.
fn push_line(out: &mut Vec<u8>, line: &[u8]) -> Result<(), AllocError>
    ensures { OnOk result (out.new.items ≡ with_line out.old.items line.now) }
{
    if line.is_empty() {
        return Ok(());
    }
    if !out.is_empty() {
        out.push(b' ')?;
    }
    out.extend_from_slice(line)
}
