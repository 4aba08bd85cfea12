//! Lists of tasks by their owners and by the resources for which they wait.

ghost use Rattle.std.specs.Prelude.{◌≡◌, ◌+◌, ◌<◌, ◌≤◌, ◌^◌, ℕ, true, if◌then◌else◌, [], ◌∷◌, ◌++◌, filter, length, vec_capacity, OnOk};
ghost use Rattle.id_lists.specs.Lists.{AreLists, list_at};
ghost use Rattle.fizz_task.specs.Board.{Board, IsBoard, state_at, waiters, waits_for};
ghost use Rattle.fizz_task.specs.Calls.{dropped, settled};
ghost use Rattle.fizz_task.specs.Indexed.{DiffersAt, HasPlaces, IsAdded, IsGuide, IsIndexed, IsRoomier, moved, name_places, owner_list, owner_places};

use crate::columns::Columns;
use crate::places::{move_to, name_list};
use fizz_text::{OutOfMemory, Text};
use id_lists::IdLists;

/// How many lists more there shall be for so many tasks: about as many as tasks, and in few steps.
pub(crate) fn more_lists(count: u32, tasks: u32) -> u32
    ensures fits { count + result < 2 ^ 32 }
    ensures some { 1 < count + result }
{
    let wanted = tasks.clamp(2, 1_000_000_000);
    if count < wanted {
        2 * wanted - count
    } else {
        0
    }
}

/// Makes room for so many lists and ids more.
pub(crate) fn reserve(
    by_owner: &mut IdLists,
    by_name: &mut IdLists,
    more: (u32, u32),
    n: u32,
) -> Result<(), OutOfMemory>
    requires owner_lists { length by_owner.old.lists + more.0 < 2 ^ 32 }
    requires name_lists { length by_name.old.lists + more.1 < 2 ^ 32 }
    requires owner_ids { by_owner.old.ids + n < 2 ^ 32 }
    requires name_ids { by_name.old.ids + n < 2 ^ 32 }
    requires owners { AreLists by_owner.old }
    requires names { AreLists by_name.old }
    ensures owners { IsRoomier by_owner.old by_owner.new }
    ensures names { IsRoomier by_name.old by_name.new }
    ensures owner_lists { OnOk result (more.0 ≤ by_owner.new.spare_lists) }
    ensures name_lists { OnOk result (more.1 ≤ by_name.new.spare_lists) }
    ensures owner_ids { OnOk result (n ≤ by_owner.new.spare_ids) }
    ensures name_ids { OnOk result (n ≤ by_name.new.spare_ids) }
{
    by_owner.reserve(more.0, n)?;
    by_name.reserve(more.1, n)?;
    Ok(())
}

/// Makes so many lists more.
fn add_lists(lists: &mut IdLists, more: u32)
    requires room { more ≤ lists.old.spare_lists }
    requires lists { AreLists lists.old }
    ensures ids { lists.new.ids ≡ lists.old.ids }
    ensures spare_ids { lists.new.spare_ids ≡ lists.old.spare_ids }
    ensures count { length lists.new.lists ≡ length lists.old.lists + more }
    ensures lists { AreLists lists.new }
{
    for _ in 0..more {
        let _ = lists.add_list();
    }
}

/// Puts all tasks into the lists of their owners, after so many lists more were made.
pub(crate) fn grow_owners<W: Drop>(columns: &Columns<W>, by_owner: &mut IdLists, more: u32)
    requires room { more ≤ by_owner.old.spare_lists }
    requires lists { AreLists by_owner.old }
    requires some { 1 < length by_owner.old.lists + more }
    requires ids { by_owner.old.ids ≡ length columns.now.states }
    requires spare { columns.now.spare ≤ by_owner.old.spare_ids }
    requires guide { IsGuide (length columns.now.states)
        (owner_places columns.now (length by_owner.old.lists)) by_owner.old.lists }
    ensures places { HasPlaces (length columns.now.states) columns.now.spare by_owner.new }
    ensures guide { IsGuide (length columns.now.states)
        (owner_places columns.now (length by_owner.new.lists)) by_owner.new.lists }
{
    if more > 0 {
        add_lists(by_owner, more);
        let count = by_owner.list_count();
        for task in 0..columns.made() {
            move_to(by_owner, task, columns.owner_place(task, count));
        }
    }
}

/// Puts all tasks that wait into the lists of the names, after so many lists more were made.
pub(crate) fn grow_names<W: Drop>(columns: &Columns<W>, by_name: &mut IdLists, more: u32)
    requires room { more ≤ by_name.old.spare_lists }
    requires lists { AreLists by_name.old }
    requires some { 1 < length by_name.old.lists + more }
    requires ids { by_name.old.ids ≡ length columns.now.states }
    requires spare { columns.now.spare ≤ by_name.old.spare_ids }
    requires guide { IsGuide (length columns.now.states)
        (name_places columns.now (length by_name.old.lists)) by_name.old.lists }
    ensures places { HasPlaces (length columns.now.states) columns.now.spare by_name.new }
    ensures guide { IsGuide (length columns.now.states)
        (name_places columns.now (length by_name.new.lists)) by_name.new.lists }
{
    if more > 0 {
        add_lists(by_name, more);
        let count = by_name.list_count();
        for task in 0..columns.made() {
            move_to(by_name, task, columns.name_place(task, count));
        }
    }
}

/// Puts a task into the lists in which it shall stand.
pub(crate) fn place<W: Drop>(
    columns: &Columns<W>,
    by_owner: &mut IdLists,
    by_name: &mut IdLists,
    task: u32,
)
    requires owners { HasPlaces (length columns.now.states) columns.now.spare by_owner.old }
    requires names { HasPlaces (length columns.now.states) columns.now.spare by_name.old }
    requires made { task < length columns.now.states }
    ensures owners { by_owner.new ≡ record by_owner.old {
      lists = moved (owner_places columns.now (length by_owner.old.lists) task) task by_owner.old.lists;
    } }
    ensures names { by_name.new ≡ record by_name.old {
      lists = moved (name_places columns.now (length by_name.old.lists) task) task by_name.old.lists;
    } }
    ensures indexed { (old : Board W) → DiffersAt task old columns.now
        → IsIndexed old by_owner.old by_name.old → IsIndexed columns.now by_owner.new by_name.new }
    ensures added { (old : Board W) → task ≡ length old.states → IsAdded old columns.now
        → IsGuide (length old.states) (owner_places old (length by_owner.old.lists)) by_owner.old.lists
        → IsGuide (length old.states) (name_places old (length by_name.old.lists)) by_name.old.lists
        → IsIndexed columns.now by_owner.new by_name.new }
{
    move_to(
        by_owner,
        task,
        columns.owner_place(task, by_owner.list_count()),
    );
    move_to(
        by_name,
        task,
        columns.name_place(task, by_name.list_count()),
    );
}

/// Lets the tasks of an owner go, which stand in this list.
pub(crate) fn drop_all<W: Drop>(
    columns: &mut Columns<W>,
    by_owner: &mut IdLists,
    by_name: &mut IdLists,
    owner: Option<u32>,
    list: u32,
)
    requires indexed { IsIndexed columns.old by_owner.old by_name.old }
    requires board { IsBoard columns.old }
    requires list { list ≡ owner_list (length by_owner.old.lists) owner }
    ensures dropped { columns.new ≡ dropped owner columns.old }
    ensures indexed { IsIndexed columns.new by_owner.new by_name.new }
{
    let mut next = by_owner.first(list);
    while let Some(task) = next {
        next = by_owner.next(task);
        if columns.is_owned(task, owner) {
            columns.let_go(task);
            place(columns, by_owner, by_name, task);
        }
    }
}

fn push_if(found: &mut Vec<u32>, task: u32, wanted: bool)
    requires { wanted ≡ true → length found.old.items < vec_capacity found.old }
    ensures items { found.new.items ≡ found.old.items ++ (if wanted then task ∷ [] else []) }
    ensures room { vec_capacity found.new ≡ vec_capacity found.old }
{
    if wanted {
        found.push_reserved(task);
    }
}

/// Finds the tasks of a list that wait for a resource.
fn find_waiting<W: Drop>(
    columns: &Columns<W>,
    by_name: &IdLists,
    found: &mut Vec<u32>,
    name: &Text,
    list: u32,
)
    requires empty { found.old.items ≡ [] }
    requires lists { AreLists by_name.now }
    requires room { by_name.now.ids ≤ vec_capacity found.old }
    ensures found { found.new.items
        ≡ filter (λ n. waits_for name.now (state_at columns.now.states n)) (list_at by_name.now.lists list) }
    ensures room { vec_capacity found.new ≡ vec_capacity found.old }
{
    let mut next = by_name.first(list);
    while let Some(task) = next {
        push_if(found, task, columns.waits_for(task, name));
        next = by_name.next(task);
    }
}

/// Finds the tasks that wait for a resource, in ascending order.
pub(crate) fn find_all<W: Drop>(
    columns: &Columns<W>,
    by_name: &IdLists,
    found: &mut Vec<u32>,
    name: &Text,
)
    requires places { HasPlaces (length columns.now.states) columns.now.spare by_name.now }
    requires guide { IsGuide (length columns.now.states)
        (name_places columns.now (length by_name.now.lists)) by_name.now.lists }
    requires some { 0 < length columns.now.states }
    requires room { length columns.now.states ≤ vec_capacity found.old }
    ensures found { found.new.items ≡ waiters name.now columns.now.states }
    ensures room { vec_capacity found.new ≡ vec_capacity found.old }
{
    let list = name_list(name, by_name.list_count());
    found.clear();
    find_waiting(columns, by_name, found, name, list);
    found.sort_unstable();
}

/// Makes these tasks runnable, which are those that wait for a resource.
pub(crate) fn wake_all<W: Drop>(
    columns: &mut Columns<W>,
    by_owner: &mut IdLists,
    by_name: &mut IdLists,
    tasks: &[u32],
    name: &Text,
)
    requires indexed { IsIndexed columns.old by_owner.old by_name.old }
    requires waiting { tasks.now ≡ waiters name.now columns.old.states }
    ensures woken { columns.new ≡ settled name.now columns.old }
    ensures indexed { IsIndexed columns.new by_owner.new by_name.new }
{
    for task in tasks {
        columns.wake(*task, name);
        place(columns, by_owner, by_name, *task);
    }
}
