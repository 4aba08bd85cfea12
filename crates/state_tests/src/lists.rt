//! Lists of calls that are drawn: after each flush the page that was sent shows the settled tree with some boundaries
//! pending, and in the end its settled document is the final one.

ghost use Rattle.std.specs.Prelude.{OnOk};
ghost use Rattle.state_tests.specs.Driven.{IsDriven};

use super::draws::Draws;
use super::driven::Driven;
use super::pages::{final_page, settled_page, view_of};
use super::programs::{COUNT, Program, program_of};
use super::shows::is_shown;
use super::sources::{Source, forest_of, plan_of, source_of};
use super::steps::{Step, serve};
use fizz_piece::Plan;
use settled_tree::Forest;
use std::alloc::Global;
use std::test::Fail;

/// How many lists of calls are drawn for each page.
const LISTS: u64 = 200;

/// How many calls a list has, before those that end the page.
const CALLS: usize = 40;

/// A call, where so many works are held.
fn step_of(draws: &mut Draws, held: usize) -> Step {
    let place = draws.below(held);
    let budget = budget_of(draws.below(4));
    match draws.below(16) {
        0 | 1 => Step::Settle,
        2 | 3 | 4 => Step::Hold,
        5 | 6 | 7 => Step::Commit(place),
        8 => Step::GiveBack(place),
        9 | 10 | 11 | 12 => Step::WorkOnce,
        13 => rare_step_of(draws.below(2)),
        _ => Step::Flush(budget),
    }
}

fn rare_step_of(draw: usize) -> Step {
    if draw == 0 {
        Step::Reclaim
    } else {
        Step::Close
    }
}

fn budget_of(draw: usize) -> u32 {
    match draw {
        0 => 0,
        1 => 1,
        2 => 20,
        _ => 60,
    }
}

/// Whether a call finds what it is for: a work that is held.
fn can_serve(step: Step, held: usize) -> bool {
    match step {
        Step::Commit(_) | Step::GiveBack(_) => held > 0,
        _ => true,
    }
}

/// Whether what was sent so far shows the tree, if anything was.
fn shows(alloc: Global, forest: &Forest, page: &[u8]) -> Result<bool, Fail> {
    if page.is_empty() {
        return Ok(true);
    }
    let view = view_of(alloc, page)?;
    Ok(is_shown(forest, &view))
}

/// Makes a call, and tells whether the page still shows the tree.
fn goes_on(
    alloc: Global,
    driven: &mut Driven<'_>,
    forest: &Forest,
    step: Step,
) -> Result<bool, Fail>
    requires { IsDriven driven.old.state driven.old.held.items }
    ensures { OnOk result (IsDriven driven.new.state driven.new.held.items) }
{
    if !can_serve(step, driven.held.len()) {
        return Ok(true);
    }
    serve(alloc, driven, step)?;
    match step {
        Step::Flush(_) => shows(alloc, forest, driven.state.transcript()),
        _ => Ok(true),
    }
}

/// Makes calls that are drawn, up to the first after which the page doesn't show the tree. `false` where there is one.
fn make_calls(
    alloc: Global,
    driven: &mut Driven<'_>,
    forest: &Forest,
    draws: &mut Draws,
) -> Result<bool, Fail>
    requires { IsDriven driven.old.state driven.old.held.items }
    ensures { OnOk result (IsDriven driven.new.state driven.new.held.items) }
{
    'calls: for _ in 0..CALLS {
        let step = step_of(draws, driven.held.len());
        if !goes_on(alloc, driven, forest, step)? {
            return Ok(false);
        }
    }
    Ok(true)
}

/// Whether a list of calls that is drawn goes well, up to the page's end.
fn goes_well(
    alloc: Global,
    plan: Plan<'_>,
    forest: &Forest,
    last: &[u8],
    seed: u64,
) -> Result<bool, Fail> {
    let mut driven = Driven::new(alloc, plan)?;
    plays_well(alloc, &mut driven, forest, last, seed)
}

fn plays_well(
    alloc: Global,
    driven: &mut Driven<'_>,
    forest: &Forest,
    last: &[u8],
    seed: u64,
) -> Result<bool, Fail>
    requires { IsDriven driven.old.state driven.old.held.items }
{
    let mut draws = Draws::from_seed(seed);
    if !make_calls(alloc, driven, forest, &mut draws)? {
        return Ok(false);
    }
    driven.finish(alloc)?;
    ends_well(alloc, forest, last, driven.state.transcript())
}

/// Whether a whole page shows the tree, and its settled document is the last one.
fn ends_well(alloc: Global, forest: &Forest, last: &[u8], page: &[u8]) -> Result<bool, Fail> {
    if !shows(alloc, forest, page)? {
        return Ok(false);
    }
    Ok(settled_page(alloc, page)?.as_slice() == last)
}

/// A line for each list of calls of a page that doesn't go well.
fn report_of(alloc: Global, program: Program) -> Result<String, Fail> {
    let source = source_of(alloc, program.text, program.script, program.progressive)?;
    report_from(alloc, &source)
}

fn report_from(alloc: Global, source: &Source) -> Result<String, Fail> {
    let plan = plan_of(alloc, source)?;
    let forest = forest_of(alloc, source)?;
    let last = final_page(alloc, &forest)?;
    report_on(alloc, plan, &forest, last.as_slice())
}

fn report_on(alloc: Global, plan: Plan<'_>, forest: &Forest, last: &[u8]) -> Result<String, Fail> {
    let mut report = String::new(alloc);
    'seeds: for seed in 0..LISTS {
        if !goes_well(alloc, plan, forest, last, seed)? {
            let line = format!(in alloc; "seed {seed}\n")?;
            report.push_str(line.as_str())?;
        }
    }
    Ok(report)
}

#[test]
fn lists_of_calls_show_the_page(rt: HostRuntime) -> Result<(), Fail> {
    let alloc = rt.alloc();
    for number in 0..COUNT {
        let report = report_of(alloc, program_of(number))?;
        assert!(&rt; report.is_empty(), "page {number}: {report}");
    }
    Ok(())
}
