//! Edits of the links between segments.

ghost use Rattle.std.specs.Prelude.{◌≡◌, ◌<◌, ◌+◌, ℕ, List, Option, [], ◌∷◌, ◌++◌, None, Some, OnOk, OnErr, length, slice_set, vec_capacity};
ghost use Rattle.fizz_segment.specs.Tree.{first_of, kids_of, next_of, part_at};
ghost use Rattle.fizz_segment.specs.Nearest.{link_at, set_if, set_unless};
ghost use Rattle.fizz_segment.specs.Linked.{AreAsLong, AreLinked, AreSameLinks, HasLinkRoom, IsAppended, IsMadeBefore, IsPushed, IsSameRoom, IsUnlinked};
ghost use Rattle.fizz_segment.specs.declared.segment.Part.{Part};

use crate::links::Links;
use fizz_text::OutOfMemory;
use std::alloc::Global;

pub(crate) fn no_links(alloc: Global) -> Links
    ensures first { result.first.items ≡ [] }
    ensures last { result.last.items ≡ [] }
    ensures previous { result.previous.items ≡ [] }
    ensures next { result.next.items ≡ [] }
{
    Links {
        first: Vec::new(alloc),
        last: Vec::new(alloc),
        previous: Vec::new(alloc),
        next: Vec::new(alloc),
    }
}

/// Makes room for so many segments more.
pub(crate) fn reserve(links: &mut Links, n: usize) -> Result<(), OutOfMemory>
    requires { AreAsLong links.old }
    ensures same { AreSameLinks links.old links.new }
    ensures ok { OnOk result (HasLinkRoom (length links.old.first.items + n) links.new) }
    ensures kept { (places : ℕ) → HasLinkRoom places links.old → HasLinkRoom places links.new }
{
    links.first.reserve(n)?;
    links.last.reserve(n)?;
    links.previous.reserve(n)?;
    links.next.reserve(n)?;
    Ok(())
}

fn set(links: &mut Vec<Option<u32>>, id: u32, value: Option<u32>)
    ensures items { links.new.items ≡ slice_set links.old.items id value }
    ensures room { vec_capacity links.new ≡ vec_capacity links.old }
{
    if let Some(link) = links.get_mut(id as usize) {
        *link = value;
    }
}

/// The link of a segment, if there is one.
fn link(links: &[Option<u32>], id: u32) -> Option<u32>
    ensures { result ≡ link_at links.now id }
{
    match links.get(id as usize) {
        Some(link) => *link,
        None => None,
    }
}

fn set_where_some(links: &mut Vec<Option<u32>>, id: Option<u32>, value: Option<u32>)
    ensures items { links.new.items ≡ set_if id value links.old.items }
    ensures room { vec_capacity links.new ≡ vec_capacity links.old }
{
    if let Some(id) = id {
        set(links, id, value);
    }
}

fn set_where_none(links: &mut Vec<Option<u32>>, other: Option<u32>, id: u32, value: Option<u32>)
    ensures items { links.new.items ≡ set_unless other id value links.old.items }
    ensures room { vec_capacity links.new ≡ vec_capacity links.old }
{
    if other.is_none() {
        set(links, id, value);
    }
}

fn push(links: &mut Links)
    requires room { HasLinkRoom (length links.old.first.items + 1) links.old }
    requires lengths { AreAsLong links.old }
    ensures pushed { IsPushed links.old links.new }
    ensures room { IsSameRoom links.old links.new }
{
    links.first.push_reserved(None);
    links.last.push_reserved(None);
    links.previous.push_reserved(None);
    links.next.push_reserved(None);
}

/// Makes a segment the last kid of its parent.
fn append(links: &mut Links, parent: u32, id: u32)
    ensures appended { IsAppended parent id links.old links.new }
    ensures room { IsSameRoom links.old links.new }
{
    let last = link(&links.last, parent);
    set_where_none(&mut links.first, last, parent, Some(id));
    set_where_some(&mut links.next, last, Some(id));
    set(&mut links.previous, id, last);
    set(&mut links.last, parent, Some(id));
}

/// Takes a kid out.
fn unlink(links: &mut Links, parent: u32, id: u32)
    ensures unlinked { IsUnlinked parent id links.old links.new }
    ensures room { IsSameRoom links.old links.new }
{
    let previous = link(&links.previous, id);
    let next = link(&links.next, id);
    set_where_none(&mut links.first, previous, parent, next);
    set_where_none(&mut links.last, next, parent, previous);
    set_where_some(&mut links.next, previous, next);
    set_where_some(&mut links.previous, next, previous);
}

/// Gives a new segment links, and makes it the last kid of its parent.
pub(crate) fn add(links: &mut Links, parent: Option<u32>, id: u32)
    requires room { HasLinkRoom (length links.old.first.items + 1) links.old }
    requires lengths { AreAsLong links.old }
    ensures linked { (parts : List (Option Part)) (part : Part) → part.parent ≡ parent → length parts ≡ id
        → IsMadeBefore id parent → AreLinked parts links.old → AreLinked (parts ++ Some part ∷ []) links.new }
    ensures room { IsSameRoom links.old links.new }
{
    push(links);
    match parent {
        None => {},
        Some(parent) => append(links, parent, id),
    }
}

/// Takes a segment that is forgotten out of the kids of its parent.
pub(crate) fn remove(links: &mut Links, parent: Option<u32>, id: u32)
    ensures linked { (parts : List (Option Part)) (part : Part) → part_at parts id ≡ Some part → part.parent ≡ parent
        → AreLinked parts links.old → AreLinked (slice_set parts id None) links.new }
    ensures room { IsSameRoom links.old links.new }
{
    match parent {
        None => {},
        Some(parent) => unlink(links, parent, id),
    }
}

/// The first live kid of a segment.
pub(crate) fn first(links: &Links, id: u32) -> Option<u32>
    ensures { (parts : List (Option Part)) → AreLinked parts links.now → result ≡ first_of (kids_of parts id) }
{
    link(&links.first, id)
}

/// The live kid that follows one of this parent.
pub(crate) fn next(links: &Links, parent: Option<u32>, id: u32) -> Option<u32>
    ensures { (parts : List (Option Part)) (part : Part) → part_at parts id ≡ Some part → part.parent ≡ parent
        → AreLinked parts links.now → result ≡ next_of parts parent id }
{
    match parent {
        None => None,
        Some(_) => link(&links.next, id),
    }
}
