ghost use Rattle.std.specs.Prelude.{◌≡◌, ◌+◌, ◌<◌, ◌^◌, ◌↔◌, length, false, true, drop, IsTrue, IfOk, OnOk, OnErr, Some, None};
ghost use Rattle.std.specs.Option.{option_copied};
ghost use Rattle.fizz_segment.specs.Tree.{part_at};
ghost use Rattle.fizz_segment.specs.Linked.{IsMadeBefore};
ghost use Rattle.fizz_segment.specs.declared.segment.Part.{Part};
ghost use Rattle.fizz_segment.specs.Calls.{is_complete, with_bytes};

use crate::linking;
use crate::links::Links;
use crate::marks::Marks;
use crate::segment::{Flags, Mark, Part, SegId, SegKind, SegView};
use fizz_text::OutOfMemory;
use sqlite_items::Items;
use std::alloc::Global;
use std::marker::Model;

/// The segments of a page, numbered in the order in which they were made. No call but `reserve` takes memory, and each
/// other call takes constant time: the live kids of a segment are linked, in the order in which they were added.
#[derive(Debug, Drop)]
pub struct Segments {
    /// `None` where a segment is forgotten.
    parts: Vec<Option<Part>>,
    marks: Vec<Mark>,
    links: Links,
    spare: u32,
}

impl Model for Segments {
    ghost use Rattle.std.specs.Prelude.{◌+◌, ◌<◌, ◌≤◌, ◌^◌, length, vec_capacity};
    ghost use Rattle.fizz_segment.specs.Tree.{Tree, IsTree};
    ghost use Rattle.fizz_segment.specs.Linked.{AreLinked, HasLinkRoom};

    ghost Value = { Tree };

    ghost view = { λ s. record { parts = s.parts.items; marks = s.marks.items; spare = s.spare } };

    ghost invariant = { λ s. IsTree (record { parts = s.parts.items; marks = s.marks.items; spare = s.spare })
        × (length s.parts.items + s.spare ≤ vec_capacity s.parts)
        × (length s.parts.items + s.spare ≤ vec_capacity s.marks)
        × AreLinked s.parts.items s.links
        × HasLinkRoom (length s.parts.items + s.spare) s.links };
}

impl Segments {
    ghost use Rattle.fizz_segment.specs.Tree.{IsTree, mark_at};
    ghost use Rattle.fizz_segment.specs.Calls.{IsLive, added, child_of, completed, forgotten, is_complete, no_segments, reserved, root_of, site_of, with_drawn, with_printed};
    ghost use Rattle.fizz_segment.specs.Tree.{no_flags};
    ghost use Rattle.fizz_segment.specs.Views.{IsViewOf};

    /// No segment.
    pub fn new(alloc: Global) -> Segments
        ensures { result ≡ no_segments }
    {
        Segments {
            parts: Vec::new(alloc),
            marks: Vec::new(alloc),
            links: linking::no_links(alloc),
            spare: 0,
        }
    }

    /// Makes room for at least `n` segments more.
    pub fn reserve(&mut self, n: u32) -> Result<(), OutOfMemory>
        requires { length self.old.parts + n < 2 ^ 32 }
        ensures ok { OnOk result (self.new ≡ reserved n self.old) }
        ensures err { OnErr result (self.new ≡ self.old) }
    {
        if n <= self.spare {
            return Ok(());
        }
        self.parts.reserve(n as usize)?;
        self.marks.reserve(n as usize)?;
        linking::reserve(&mut self.links, n as usize)?;
        self.spare = n;
        Ok(())
    }

    /// How many segments can be made without memory.
    pub fn spare(&self) -> u32
        ensures spare { result ≡ self.now.spare }
        ensures tree { IsTree self.now }
    {
        self.spare
    }

    /// The number that the next segment gets.
    pub fn next(&self) -> u32
        ensures next { result ≡ length self.now.parts }
        ensures tree { IsTree self.now }
    {
        self.parts.len() as u32
    }

    fn add(&mut self, part: Part, flags: Flags) -> SegId
        requires spare { 0 < self.old.spare }
        requires parent { IsMadeBefore (length self.old.parts) part.parent }
        ensures number { result ≡ length self.old.parts }
        ensures added { self.new ≡ added part flags self.old }
    {
        let id = self.parts.len() as u32;
        linking::add(&mut self.links, number(part.parent), id);
        self.parts.push_reserved(Some(part));
        self.marks.push_reserved(Mark {
            flags,
            drawn: None,
            printed: false,
        });
        self.spare -= 1;
        SegId(id)
    }

    /// Makes a segment that was cut out of its parent at a place.
    pub fn add_child(&mut self, parent: SegId, at: usize, flags: Flags) -> SegId
        requires spare { 0 < self.old.spare }
        requires live { IsLive self.old parent }
        ensures number { result ≡ length self.old.parts }
        ensures added { self.new ≡ added (child_of parent «at») flags self.old }
    {
        let part = Part {
            kind: SegKind::Child,
            parent: Some(parent),
            at,
            bytes: None,
        };
        self.add(part, flags)
    }

    /// Makes the segment of a boundary's fallback, at the boundary's place in the parent.
    pub fn add_site(&mut self, parent: SegId, at: usize, boundary: u32) -> SegId
        requires spare { 0 < self.old.spare }
        requires live { IsLive self.old parent }
        ensures number { result ≡ length self.old.parts }
        ensures added { self.new ≡ added (site_of parent «at» boundary) no_flags self.old }
    {
        let part = Part {
            kind: SegKind::Site { boundary },
            parent: Some(parent),
            at,
            bytes: None,
        };
        self.add(
            part,
            Flags {
                lead: false,
                embedded: false,
            },
        )
    }

    /// Makes the segment of a boundary's content, or that of the shell.
    pub fn add_root(&mut self, boundary: Option<u32>) -> SegId
        requires { 0 < self.old.spare }
        ensures number { result ≡ length self.old.parts }
        ensures added { self.new ≡ added (root_of boundary) no_flags self.old }
    {
        let part = Part {
            kind: SegKind::Root { boundary },
            parent: None,
            at: 0,
            bytes: None,
        };
        self.add(
            part,
            Flags {
                lead: false,
                embedded: false,
            },
        )
    }

    /// How a segment stands.
    pub fn look(&self, id: SegId) -> SegView<'_>
        requires { IsLive self.now id }
        ensures { IsViewOf self.now id result }
    {
        let index = id.0 as usize;
        let mark = self.marks[index];
        match &self.parts[index] {
            None => unreachable!(),
            Some(part) => {
                let first = linking::first(&self.links, id.0);
                let next = linking::next(&self.links, number(part.parent), id.0);
                SegView {
                    kind: part.kind,
                    parent: part.parent,
                    at: part.at,
                    flags: mark.flags,
                    bytes: bytes_of(part),
                    first: named(first),
                    next: named(next),
                    drawn: mark.drawn,
                    printed: mark.printed,
                }
            },
        }
    }

    /// Whether there is a segment of this number that isn't forgotten.
    pub fn is_live(&self, id: SegId) -> bool
        ensures { IsTrue result ↔ IsLive self.now id }
    {
        match self.parts.get(id.0 as usize) {
            Some(part) => part.is_some(),
            None => false,
        }
    }

    /// How a segment is printed; one that was never made isn't.
    pub fn mark(&self, id: SegId) -> Mark
        ensures { result ≡ mark_at self.now.marks id }
    {
        match self.marks.get(id.0 as usize) {
            Some(mark) => *mark,
            None => Mark {
                flags: Flags {
                    lead: false,
                    embedded: false,
                },
                drawn: None,
                printed: false,
            },
        }
    }

    /// The segment draws the id of its placeholder. If it isn't complete, its flags are cleared.
    pub fn draw(&mut self, id: SegId, h: u32)
        requires { IsLive self.old id }
        ensures { self.new ≡ with_drawn id h self.old }
    {
        let index = id.0 as usize;
        let complete = has_bytes(&self.parts[index]);
        let mark = &mut self.marks[index];
        mark.drawn = Some(h);
        if !complete {
            mark.flags = Flags {
                lead: false,
                embedded: false,
            };
        }
    }

    /// The segment is printed.
    pub fn mark_printed(&mut self, id: SegId)
        requires live { IsLive self.old id }
        requires complete { IsTrue (is_complete (part_at self.old.parts id)) }
        ensures { self.new ≡ with_printed id self.old }
    {
        self.marks[id.0 as usize].printed = true;
    }

    /// A copy of how the segments are printed.
    pub fn marks(&self, alloc: Global) -> Result<Marks, OutOfMemory>
        ensures marks { IfOk result (λ m. m ≡ self.now.marks) }
        ensures tree { IsTree self.now }
    {
        let items = Vec::from_slice(alloc, &self.marks)?;
        Ok(Marks { items })
    }

    /// The segments are printed as a changed copy says.
    pub fn set_marks(&mut self, marks: &Marks)
        requires { length marks.now ≡ length self.old.parts }
        ensures { self.new ≡ record self.old { marks = marks.now } }
    {
        self.marks.copy_from_slice(&marks.items);
    }

    /// Gives a segment its bytes, and the flags under which they were printed.
    pub fn complete(&mut self, id: SegId, flags: Flags, bytes: Vec<u8>)
        requires live { IsLive self.old id }
        requires open { is_complete (part_at self.old.parts id) ≡ false }
        ensures { self.new ≡ completed id flags bytes.items self.old }
    {
        let index = id.0 as usize;
        put_bytes(&mut self.parts[index], bytes);
        self.marks[index].flags = flags;
    }

    /// Lets a segment go. Its number isn't used again.
    pub fn forget(&mut self, id: SegId)
        requires { IsLive self.old id }
        ensures { self.new ≡ forgotten id self.old }
    {
        let parent = parent_of(&self.parts[id.0 as usize]);
        linking::remove(&mut self.links, parent, id.0);
        self.parts[id.0 as usize] = None;
    }
}

fn has_bytes(part: &Option<Part>) -> bool
    ensures { result ≡ is_complete part.now }
{
    match part {
        Some(part) => part.bytes.is_some(),
        None => false,
    }
}

fn bytes_of(part: &Part) -> Option<&[u8]>
    ensures { option_copied result ≡ part.now.bytes }
{
    match &part.bytes {
        Some(bytes) => Some(bytes.as_slice()),
        None => None,
    }
}

fn put_bytes(part: &mut Option<Part>, bytes: Vec<u8>)
    ensures { part.new ≡ with_bytes bytes.items part.old }
{
    if let Some(part) = part {
        part.bytes = Some(Items::from_vec(bytes));
    }
}

fn parent_of(part: &Option<Part>) -> Option<u32>
    ensures { (own : Part) → part.now ≡ Some own → result ≡ own.parent }
{
    match part {
        Some(part) => number(part.parent),
        None => None,
    }
}

fn number(id: Option<SegId>) -> Option<u32>
    ensures { result ≡ id }
{
    match id {
        Some(id) => Some(id.0),
        None => None,
    }
}

fn named(number: Option<u32>) -> Option<SegId>
    ensures { result ≡ number }
{
    match number {
        Some(number) => Some(SegId(number)),
        None => None,
    }
}
