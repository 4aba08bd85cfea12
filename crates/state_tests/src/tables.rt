//! Tables of calls with what each answers.

ghost use Rattle.state_tests.specs.Driven.{IsDriven};

use super::driven::Driven;
use super::functions::sent;
use super::sources::{plan_of, source_of};
use super::steps::{Step, serve};
use fizz_piece::Plan;
use std::alloc::Global;
use std::test::Fail;

/// A call and its answer.
pub(super) type Row = (Step, &'static str);

/// A line for each call of a new page that answers something else.
pub(super) fn differences(
    alloc: Global,
    text: &str,
    script: &str,
    rows: &[Row],
) -> Result<String, Fail> {
    let source = source_of(alloc, text, script, 12_800)?;
    let plan = plan_of(alloc, &source)?;
    differences_in(alloc, plan, rows)
}

fn differences_in(alloc: Global, plan: Plan<'_>, rows: &[Row]) -> Result<String, Fail> {
    let mut driven = Driven::new(alloc, plan)?;
    let mut report = String::new(alloc);
    serve_rows(alloc, &mut driven, rows, &mut report)?;
    Ok(report)
}

fn serve_rows(
    alloc: Global,
    driven: &mut Driven<'_>,
    rows: &[Row],
    report: &mut String,
) -> Result<(), Fail>
    requires { IsDriven driven.old.state driven.old.held.items }
{
    'rows: for (step, words) in rows {
        let found = serve(alloc, driven, *step)?;
        push_difference(alloc, found.as_str(), words, report)?;
    }
    Ok(())
}

fn push_difference(
    alloc: Global,
    found: &str,
    words: &str,
    report: &mut String,
) -> Result<(), Fail> {
    let wanted = sent(alloc, words)?;
    if found != wanted.as_str() {
        let line = format!(in alloc; "{found} for {wanted}\n")?;
        report.push_str(line.as_str())?;
    }
    Ok(())
}
