ghost use Rattle.std.specs.Prelude.{◌≡◌, ◌+◌, ◌<◌, ◌≤◌, ◌++◌, [], ◌∷◌, ℕ, List, length, filter, codes, if◌then◌else◌, IfOk, OnOk};
ghost use Rattle.std.specs.List.{enumerate_from};
ghost use Rattle.page_generator.specs.Pages.{is_lined, leaf_line, lined, pause_after, picks_from};
ghost use Rattle.page_generator.specs.Parts.{later_lines, leaf_lines};

use crate::draws::Draws;
use crate::numbers::push_number;
use fizz_text::OutOfMemory;
use std::alloc::Global;

/// What so many leaves draw, a number below 64 each.
pub(crate) fn picks_of(alloc: Global, draws: &mut Draws, count: u32) -> Result<Vec<u8>, OutOfMemory>
    ensures { IfOk result (λ picks. picks.items ≡ picks_from draws.old count) }
{
    let mut picks = Vec::with_capacity(alloc, count as usize)?;
    for _leaf in 0..count {
        picks.push((draws.next() % 64) as u8)?;
    }
    Ok(picks)
}

/// Appends the lines of the leaves that have these picks, and the pauses between them.
pub(crate) fn push_leaf_lines(script: &mut Vec<u8>, picks: &[u8]) -> Result<(), OutOfMemory>
    requires { length picks.now ≤ 50000 }
    ensures { OnOk result (script.new.items
        ≡ script.old.items ++ leaf_lines 0 (lined (enumerate_from 0 picks.now))) }
{
    let count = push_half(script, picks, 1, 0)?;
    push_half(script, picks, 0, count)?;
    Ok(())
}

/// Appends the lines of the leaves whose numbers leave this remainder at 2, where `count` lines of leaves stand before
/// them. The answer counts these too.
fn push_half(
    script: &mut Vec<u8>,
    picks: &[u8],
    remainder: u32,
    count: u32,
) -> Result<u32, OutOfMemory>
    requires few { length picks.now ≤ 50000 }
    requires fits { count ≤ 50000 }
    ensures count { IfOk result (λ total. total ≤ count + length picks.now) }
    ensures script { IfOk result (λ total. (later : List (ℕ × ℕ))
        → script.new.items ++ leaf_lines total later
        ≡ script.old.items
        ++ leaf_lines count (filter (is_lined remainder) (enumerate_from 0 picks.now) ++ later)) }
{
    let mut total = count;
    for (leaf, pick) in picks.iter().enumerate() {
        total = push_leaf(script, leaf as u32, *pick, remainder, total)?;
    }
    Ok(total)
}

/// Appends the line of a leaf, if it has one in this half, and the pause behind it.
fn push_leaf(
    script: &mut Vec<u8>,
    leaf: u32,
    pick: u8,
    remainder: u32,
    count: u32,
) -> Result<u32, OutOfMemory>
    requires { count < 100000 }
    ensures count { IfOk result (λ total. total ≤ count + 1) }
    ensures script { IfOk result (λ total. (later : List (ℕ × ℕ))
        → script.new.items ++ leaf_lines total later
        ≡ script.old.items ++ leaf_lines count
        (if is_lined remainder (leaf, pick) then (leaf, pick) ∷ later else later)) }
{
    if leaf % 2 == remainder && pick != 63 {
        push_leaf_line(script, leaf, pick)?;
        push_pause(script, count + 1)?;
        Ok(count + 1)
    } else {
        Ok(count)
    }
}

/// Appends the line of a leaf behind a comma.
fn push_leaf_line(script: &mut Vec<u8>, leaf: u32, pick: u8) -> Result<(), OutOfMemory>
    ensures { OnOk result (script.new.items
        ≡ script.old.items ++ (codes "," ++ leaf_line (leaf, pick))) }
{
    script.extend_from_slice(b",{\"resolve\":\"r")?;
    push_number(script, leaf)?;
    script.extend_from_slice(b"\",\"value\":")?;
    push_number(script, u32::from(pick % 50))?;
    script.push(b'}')?;
    Ok(())
}

/// Appends the pause that stands behind so many lines of leaves, if one does.
fn push_pause(script: &mut Vec<u8>, count: u32) -> Result<(), OutOfMemory>
    ensures { OnOk result (script.new.items
        ≡ script.old.items ++ later_lines (pause_after count)) }
{
    if count % 16 == 0 {
        script.extend_from_slice(b",{\"work\":0},{\"flush\":0}")?;
    }
    Ok(())
}
