ghost use Rattle.std.specs.Prelude.{◌≡◌, ◌+◌, ◌-◌, ◌<◌, ◌≤◌, ◌++◌, length, codes, decimal, IfOk, OnOk};
ghost use Rattle.page_generator.specs.Draws.{next_state, state_after};
ghost use Rattle.page_generator.specs.Pages.{groups_line, page_groups, group_text};
ghost use Rattle.page_generator.specs.Parts.{group_size, groups_from, later_groups, later_numbers, numbers_from};

use crate::draws::Draws;
use crate::numbers::push_number;
use fizz_text::OutOfMemory;

/// Draws the groups of a page and appends the line that resolves their list.
pub(crate) fn push_groups_line(
    script: &mut Vec<u8>,
    draws: &mut Draws,
    size: u32,
) -> Result<(), OutOfMemory>
    requires { 1 ≤ size }
    ensures script { OnOk result (script.new.items
        ≡ script.old.items ++ groups_line (page_groups draws.old size)) }
    ensures draws { OnOk result (draws.new
        ≡ state_after (length (page_groups draws.old size)) draws.old) }
{
    script.extend_from_slice(b"{\"resolve\":\"all\",\"value\":[")?;
    let past = push_next_group(script, draws, 0, size)?;
    push_later_groups(script, draws, past, size)?;
    script.extend_from_slice(b"]}")?;
    Ok(())
}

/// Draws and appends the groups of the leaves from `first` on, each behind a comma.
fn push_later_groups(
    script: &mut Vec<u8>,
    draws: &mut Draws,
    first: u32,
    size: u32,
) -> Result<(), OutOfMemory>
    requires { first ≤ size }
    ensures script { OnOk result (script.new.items
        ≡ script.old.items ++ later_groups (groups_from draws.old first size)) }
    ensures draws { OnOk result (draws.new
        ≡ state_after (length (groups_from draws.old first size)) draws.old) }
{
    let mut at = first;
    while at < size {
        script.push(b',')?;
        at = push_next_group(script, draws, at, size)?;
    }
    Ok(())
}

/// Draws and appends the group that begins with the leaf `first`. The answer is the leaf after it.
fn push_next_group(
    script: &mut Vec<u8>,
    draws: &mut Draws,
    first: u32,
    size: u32,
) -> Result<u32, OutOfMemory>
    requires { first < size }
    ensures past { IfOk result (λ past. past ≡ first + group_size draws.old (size - first)) }
    ensures script { IfOk result (λ past. script.new.items
        ≡ script.old.items ++ group_text (numbers_from first past)) }
    ensures draws { OnOk result (draws.new ≡ next_state draws.old) }
{
    let wanted = (draws.next() % 8 + 1) as u32;
    let past = first + wanted.min(size - first);
    push_group(script, first, past)?;
    Ok(past)
}

/// Appends the group of the leaves from `first` on, up to `past` without it.
fn push_group(script: &mut Vec<u8>, first: u32, past: u32) -> Result<(), OutOfMemory>
    requires { first < past }
    ensures { OnOk result (script.new.items
        ≡ script.old.items ++ group_text (numbers_from first past)) }
{
    script.extend_from_slice(b"{\"items\":[")?;
    push_number(script, first)?;
    push_later_numbers(script, first + 1, past)?;
    script.extend_from_slice(b"]}")?;
    Ok(())
}

/// Appends the numbers from `first` on, up to `past` without it, each behind a comma.
fn push_later_numbers(script: &mut Vec<u8>, first: u32, past: u32) -> Result<(), OutOfMemory>
    requires { first ≤ past }
    ensures { OnOk result (script.new.items
        ≡ script.old.items ++ later_numbers (numbers_from first past)) }
{
    for number in first..past {
        push_later_number(script, number)?;
    }
    Ok(())
}

/// Appends a number behind a comma.
fn push_later_number(script: &mut Vec<u8>, number: u32) -> Result<(), OutOfMemory>
    ensures { OnOk result (script.new.items ≡ script.old.items ++ (codes "," ++ decimal number)) }
{
    script.push(b',')?;
    push_number(script, number)
}
