//! Edits of the links between ids.

ghost use Rattle.std.specs.Prelude.{◌≡◌, ◌<◌, ◌≤◌, ◌+◌, ℕ, List, Option, [], ◌∷◌, ◌++◌, None, Some, IfOk, OnOk, OnErr, length, slice_set, vec_capacity};
ghost use Rattle.id_lists.specs.Linked.{AreSameLinks, HasRoom, IsAppended, IsIdAdded, IsListAdded, IsRemoved, IsRoomMade, IsSameRoom, IsUnlinked, link_at, set_if, set_unless};

use crate::links::Links;
use fizz_text::OutOfMemory;
use std::alloc::Global;

pub(crate) fn no_links(alloc: Global) -> Links
    ensures first { result.first.items ≡ [] }
    ensures last { result.last.items ≡ [] }
    ensures previous { result.previous.items ≡ [] }
    ensures next { result.next.items ≡ [] }
    ensures home { result.home.items ≡ [] }
{
    Links {
        first: Vec::new(alloc),
        last: Vec::new(alloc),
        previous: Vec::new(alloc),
        next: Vec::new(alloc),
        home: Vec::new(alloc),
    }
}

/// Makes room for so many lists and ids more.
pub(crate) fn reserve(links: &mut Links, lists: usize, ids: usize) -> Result<(), OutOfMemory>
    ensures same { AreSameLinks links.old links.new }
    ensures ok { OnOk result (IsRoomMade lists ids links.old links.new) }
    ensures kept { (lists' ids' : ℕ) → HasRoom lists' ids' links.old → HasRoom lists' ids' links.new }
{
    links.first.reserve(lists)?;
    links.last.reserve(lists)?;
    links.previous.reserve(ids)?;
    links.next.reserve(ids)?;
    links.home.reserve(ids)?;
    Ok(())
}

fn set(links: &mut Vec<Option<u32>>, id: u32, value: Option<u32>)
    ensures items { links.new.items ≡ slice_set links.old.items id value }
    ensures room { vec_capacity links.new ≡ vec_capacity links.old }
{
    if let Some(link) = links.get_mut(id as usize) {
        *link = value;
    }
}

/// A link, if there is one.
fn link(links: &[Option<u32>], id: u32) -> Option<u32>
    ensures { result ≡ link_at links.now id }
{
    match links.get(id as usize) {
        Some(link) => *link,
        None => None,
    }
}

fn set_where_some(links: &mut Vec<Option<u32>>, id: Option<u32>, value: Option<u32>)
    ensures items { links.new.items ≡ set_if id value links.old.items }
    ensures room { vec_capacity links.new ≡ vec_capacity links.old }
{
    if let Some(id) = id {
        set(links, id, value);
    }
}

fn set_where_none(links: &mut Vec<Option<u32>>, other: Option<u32>, id: u32, value: Option<u32>)
    ensures items { links.new.items ≡ set_unless other id value links.old.items }
    ensures room { vec_capacity links.new ≡ vec_capacity links.old }
{
    if other.is_none() {
        set(links, id, value);
    }
}

/// Makes an empty list.
pub(crate) fn add_list(links: &mut Links)
    requires first { length links.old.first.items + 1 ≤ vec_capacity links.old.first }
    requires last { length links.old.last.items + 1 ≤ vec_capacity links.old.last }
    ensures pushed { IsListAdded links.old links.new }
    ensures room { IsSameRoom links.old links.new }
{
    links.first.push_reserved(None);
    links.last.push_reserved(None);
}

/// Makes an id that stands in no list.
pub(crate) fn add_id(links: &mut Links)
    requires previous { length links.old.previous.items + 1 ≤ vec_capacity links.old.previous }
    requires next { length links.old.next.items + 1 ≤ vec_capacity links.old.next }
    requires home { length links.old.home.items + 1 ≤ vec_capacity links.old.home }
    ensures pushed { IsIdAdded links.old links.new }
    ensures room { IsSameRoom links.old links.new }
{
    links.previous.push_reserved(None);
    links.next.push_reserved(None);
    links.home.push_reserved(None);
}

/// Makes an id the last of a list.
pub(crate) fn append(links: &mut Links, list: u32, id: u32)
    ensures appended { IsAppended list id links.old links.new }
    ensures room { IsSameRoom links.old links.new }
{
    let last = link(&links.last, list);
    set_where_none(&mut links.first, last, list, Some(id));
    set_where_some(&mut links.next, last, Some(id));
    set(&mut links.previous, id, last);
    set(&mut links.home, id, Some(list));
    set(&mut links.last, list, Some(id));
}

/// Takes an id out of its list.
fn unlink(links: &mut Links, list: u32, id: u32)
    ensures unlinked { IsUnlinked list id links.old links.new }
    ensures room { IsSameRoom links.old links.new }
{
    let previous = link(&links.previous, id);
    let next = link(&links.next, id);
    set_where_none(&mut links.first, previous, list, next);
    set_where_none(&mut links.last, next, list, previous);
    set_where_some(&mut links.next, previous, next);
    set_where_some(&mut links.previous, next, previous);
    set(&mut links.next, id, None);
    set(&mut links.home, id, None);
}

/// Takes an id out of the list in which it stands, if there is one.
pub(crate) fn remove(links: &mut Links, id: u32)
    ensures removed { IsRemoved (link_at links.old.home.items id) id links.old links.new }
    ensures room { IsSameRoom links.old links.new }
{
    let home = link(&links.home, id);
    match home {
        None => {},
        Some(list) => unlink(links, list, id),
    }
}

pub(crate) fn first(links: &Links, list: u32) -> Option<u32>
    ensures { result ≡ link_at links.now.first.items list }
{
    link(&links.first, list)
}

pub(crate) fn next(links: &Links, id: u32) -> Option<u32>
    ensures { result ≡ link_at links.now.next.items id }
{
    link(&links.next, id)
}

pub(crate) fn home(links: &Links, id: u32) -> Option<u32>
    ensures { result ≡ link_at links.now.home.items id }
{
    link(&links.home, id)
}

/// The same items, with room for so many more.
fn copy_items(
    alloc: Global,
    items: &[Option<u32>],
    more: usize,
) -> Result<Vec<Option<u32>>, OutOfMemory>
    ensures items { IfOk result (λ v. v.items ≡ items.now) }
    ensures room { IfOk result (λ v. length items.now + more ≤ vec_capacity v) }
{
    let mut copy = Vec::from_slice(alloc, items)?;
    copy.reserve(more)?;
    Ok(copy)
}

/// The same links, with room for so many lists and ids more.
pub(crate) fn copy_links(
    alloc: Global,
    links: &Links,
    lists: usize,
    ids: usize,
) -> Result<Links, OutOfMemory>
    ensures same { IfOk result (λ copy. AreSameLinks links.now copy) }
    ensures room { IfOk result (λ copy. IsRoomMade lists ids links.now copy) }
{
    Ok(Links {
        first: copy_items(alloc, &links.first, lists)?,
        last: copy_items(alloc, &links.last, lists)?,
        previous: copy_items(alloc, &links.previous, ids)?,
        next: copy_items(alloc, &links.next, ids)?,
        home: copy_items(alloc, &links.home, ids)?,
    })
}
