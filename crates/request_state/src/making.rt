//! What is made of the kids of a piece.

ghost use Rattle.std.specs.Prelude.{◌≡◌, ◌+◌, ◌*◌, ◌<◌, ◌≤◌, ◌^◌, ◌++◌, ◌∷◌, [], length, map, suc, vec_capacity, IfOk, OnOk, OnErr, None};
ghost use Rattle.fizz_segment.specs.Calls.{IsLive};
ghost use Rattle.fizz_boundary.specs.Calls.{IsParent};
ghost use Rattle.flush_queues.specs.Queues.{bare};
ghost use Rattle.request_state.specs.Core.{core_of, free};
ghost use Rattle.request_state.specs.Making as spec;
ghost use Rattle.request_state.specs.Making.{HasRoomFor, made_of, owned, still_waits, with_made};

use crate::job::{Claim, Job, Place};
use crate::state::State;
use fizz_boundary::Boundaries;
use fizz_piece::Kid;
use fizz_segment::{Flags, SegId, Segments};
use fizz_task::{Name, Tasks};
use fizz_text::{OutOfMemory, Path, Text};
use flush_queues::Queues;
use id_lists::IdLists;
use jsx_value::{Scope, Spot};
use settle_script::Outcomes;
use std::alloc::Global;

/// A position twice: one to be handed out, and one to be kept.
#[derive(Drop)]
pub struct Twin<'a> {
    pub given: Place<'a>,
    pub kept: Place<'a>,
}

/// A kid of a piece, with all the memory that it takes.
#[derive(Drop)]
pub enum Made<'a> {
    Hole {
        at: usize,
        lead: bool,
        position: Twin<'a>,
        /// The resource, unless it is settled.
        waits: Option<Name>,
    },
    Boundary {
        at: usize,
        path: Path,
        content: Twin<'a>,
        fallback: Twin<'a>,
    },
}

fn twin_at<'a>(
    alloc: Global,
    path: &Path,
    spot: Spot<'a>,
    scope: &Scope<'a>,
) -> Result<Twin<'a>, OutOfMemory>
    ensures { IfOk result (λ twin. twin ≡ spec.twin_of path.now spot.entry scope.now) }
{
    Ok(Twin {
        given: Place {
            path: path.copy(alloc)?,
            spot,
            scope: scope.copy(alloc)?,
        },
        kept: Place {
            path: path.copy(alloc)?,
            spot,
            scope: scope.copy(alloc)?,
        },
    })
}

/// The position of this number inside a boundary.
fn inner_twin<'a>(
    alloc: Global,
    path: &Path,
    number: u32,
    spot: Spot<'a>,
    scope: &Scope<'a>,
) -> Result<Twin<'a>, OutOfMemory>
    ensures { IfOk result (λ twin. twin ≡ spec.twin_of (path.now ++ number ∷ []) spot.entry scope.now) }
{
    let mut inner = path.copy(alloc)?;
    inner.push(number)?;
    twin_at(alloc, &inner, spot, scope)
}

/// What a position that waits for a resource still waits for.
fn waits_for(
    alloc: Global,
    outcomes: &Outcomes,
    settled: u32,
    resource: &Text,
) -> Result<Option<Name>, OutOfMemory>
    ensures { IfOk result (λ waits. waits ≡ still_waits outcomes.now settled resource.now) }
{
    match outcomes.get(resource, settled) {
        Some(_) => Ok(None),
        None => Ok(Some(Name::of(alloc, resource)?)),
    }
}

/// A kid with all the memory that it takes.
fn made_kid<'a>(
    alloc: Global,
    outcomes: &Outcomes,
    settled: u32,
    kid: &Kid<'a>,
) -> Result<Made<'a>, OutOfMemory>
    ensures { IfOk result (λ made. made ≡ made_of outcomes.now settled kid.now) }
{
    match kid {
        Kid::Hole {
            at,
            path,
            spot,
            scope,
            resource,
            lead,
        } => {
            let position = twin_at(alloc, path, *spot, scope)?;
            let waits = waits_for(alloc, outcomes, settled, resource)?;
            Ok(Made::Hole {
                at: *at,
                lead: *lead,
                position,
                waits,
            })
        },
        Kid::Boundary {
            at,
            path,
            content,
            content_scope,
            fallback,
            fallback_scope,
        } => {
            let content = inner_twin(alloc, path, 0, *content, content_scope)?;
            let fallback = inner_twin(alloc, path, 1, *fallback, fallback_scope)?;
            Ok(Made::Boundary {
                at: *at,
                path: path.copy(alloc)?,
                content,
                fallback,
            })
        },
    }
}

/// All kids, with all the memory that they take.
pub(crate) fn all_made<'a>(
    alloc: Global,
    outcomes: &Outcomes,
    settled: u32,
    kids: &[Kid<'a>],
) -> Result<Vec<Made<'a>>, OutOfMemory>
    ensures { IfOk result (λ all. all.items ≡ map (made_of outcomes.now settled) kids.now) }
{
    let mut all = Vec::with_capacity(alloc, kids.len())?;
    'kids: for kid in kids {
        all.push(made_kid(alloc, outcomes, settled, kid)?)?;
    }
    Ok(all)
}

/// Makes room for so many tasks more.
fn reserve_tasks<'a>(
    tasks: &mut Tasks<Job<'a>>,
    claims: &mut Vec<Option<Claim<'a>>>,
    count: u32,
) -> Result<(), OutOfMemory>
    ensures tasks { record tasks.new { spare = 0 } ≡ record tasks.old { spare = 0 } }
    ensures claims { claims.new.items ≡ claims.old.items }
    ensures room { OnOk result ((count ≤ tasks.new.spare)
        × (length claims.new.items + count ≤ vec_capacity claims.new)) }
{
    if count > u32::MAX - tasks.made() {
        return Err(OutOfMemory);
    }
    claims.reserve(count as usize)?;
    tasks.reserve(count)
}

/// Makes room for so many segments and boundaries more.
fn reserve_segments(
    segments: &mut Segments,
    boundaries: &mut Boundaries,
    more_segments: u32,
    more_boundaries: u32,
) -> Result<(), OutOfMemory>
    ensures segments { record segments.new { spare = 0 } ≡ record segments.old { spare = 0 } }
    ensures boundaries { record boundaries.new { spare = 0 } ≡ record boundaries.old { spare = 0 } }
    ensures room { OnOk result ((more_segments ≤ segments.new.spare)
        × (more_boundaries ≤ boundaries.new.spare)) }
{
    if more_segments > u32::MAX - segments.next() {
        return Err(OutOfMemory);
    }
    if more_boundaries > u32::MAX - boundaries.next() {
        return Err(OutOfMemory);
    }
    segments.reserve(more_segments)?;
    boundaries.reserve(more_boundaries)
}

/// Makes room for so many segments of so many boundaries more.
fn reserve_own(own: &mut IdLists, segments: u32, boundaries: u32) -> Result<(), OutOfMemory>
    ensures same { bare own.new ≡ bare own.old }
    ensures room { OnOk result ((segments ≤ own.new.spare_ids) × (boundaries ≤ own.new.spare_lists)) }
{
    if segments > u32::MAX - own.id_count() {
        return Err(OutOfMemory);
    }
    if boundaries > u32::MAX - own.list_count() {
        return Err(OutOfMemory);
    }
    own.reserve(boundaries, segments)
}

impl<'a> State<'a> {
    /// Makes room for what so many kids come to. Nothing else changes, also after a refusal.
    pub(crate) fn reserve(&mut self, kids: u32) -> Result<(), OutOfMemory>
        ensures room { OnOk result (HasRoomFor kids self.new) }
        ensures same { free (core_of self.new) ≡ free (core_of self.old) }
        ensures plan { self.new.plan ≡ self.old.plan }
    {
        if kids > u32::MAX / 2 {
            return Err(OutOfMemory);
        }
        let segments = 2 * kids;
        reserve_tasks(&mut self.tasks, &mut self.claims, segments)?;
        reserve_segments(&mut self.segments, &mut self.boundaries, segments, kids)?;
        reserve_own(&mut self.own, segments, kids)?;
        self.queues.reserve(segments, kids)
    }

    /// A task with its segment. It waits for a resource, or is runnable.
    fn spawn(&mut self, owner: Option<u32>, segment: SegId, twin: Twin<'a>, waits: Option<Name>)
        requires task { 0 < self.old.tasks.spare }
        requires claim { length self.old.claims.items < vec_capacity self.old.claims }
        ensures spawned { core_of self.new ≡ spec.with_task owner segment twin.entry waits (core_of self.old) }
        ensures room { vec_capacity self.new.claims ≡ vec_capacity self.old.claims }
        ensures plan { self.new.plan ≡ self.old.plan }
    {
        let Twin { given, kept } = twin;
        self.tasks.spawn(
            owner,
            Job {
                segment,
                given,
                kept,
            },
            waits,
        );
        self.claims.push_reserved(None);
    }

    /// Is told that a segment of this owner was made.
    fn own_segment(&mut self, owner: Option<u32>)
        requires own { 0 < self.old.own.spare_ids }
        requires queues { 0 < self.old.queues.ready.spare_ids }
        ensures made { core_of self.new ≡ spec.with_own_segment owner (core_of self.old) }
        ensures room { vec_capacity self.new.claims ≡ vec_capacity self.old.claims }
        ensures plan { self.new.plan ≡ self.old.plan }
    {
        own_one(&mut self.own, owner);
        self.queues.add_segment();
    }

    /// Makes the segment and the task of a position that waits.
    fn make_hole(
        &mut self,
        owner: Option<u32>,
        parent: SegId,
        at: usize,
        lead: bool,
        position: Twin<'a>,
        waits: Option<Name>,
    )
        requires live { IsLive self.old.segments parent }
        requires room { HasRoomFor 1 self.old }
        ensures made { core_of self.new
            ≡ spec.with_hole owner parent «at» lead position.entry waits (core_of self.old) }
        ensures room { vec_capacity self.new.claims ≡ vec_capacity self.old.claims }
        ensures plan { self.new.plan ≡ self.old.plan }
    {
        let flags = Flags {
            lead,
            embedded: true,
        };
        let segment = self.segments.add_child(parent, at, flags);
        self.own_segment(owner);
        self.spawn(owner, segment, position, waits);
    }

    /// Makes a boundary, with the segments and tasks of its content and its fallback.
    fn make_boundary(
        &mut self,
        owner: Option<u32>,
        parent: SegId,
        at: usize,
        path: Path,
        content: Twin<'a>,
        fallback: Twin<'a>,
    )
        requires live { IsLive self.old.segments parent }
        requires owner { IsParent self.old.boundaries owner }
        requires room { HasRoomFor 1 self.old }
        ensures made { core_of self.new
            ≡ spec.with_boundary owner parent «at» path content.entry fallback.entry (core_of self.old) }
        ensures room { vec_capacity self.new.claims ≡ vec_capacity self.old.claims }
        ensures plan { self.new.plan ≡ self.old.plan }
    {
        let boundary = self.boundaries.next();
        let root = self.segments.add_root(Some(boundary));
        let site = self.segments.add_site(parent, at, boundary);
        self.boundaries.add(path, owner, root, Some(site));
        self.own.add_list();
        self.queues.add_boundary();
        self.own_segment(Some(boundary));
        self.own_segment(owner);
        self.spawn(Some(boundary), root, content, None);
        self.spawn(owner, site, fallback, None);
    }

    /// Makes what a kid of a piece comes to.
    pub(crate) fn make(&mut self, owner: Option<u32>, parent: SegId, made: Made<'a>)
        requires live { IsLive self.old.segments parent }
        requires owner { IsParent self.old.boundaries owner }
        requires room { HasRoomFor 1 self.old }
        ensures made { core_of self.new ≡ with_made owner parent made.entry (core_of self.old) }
        ensures room { vec_capacity self.new.claims ≡ vec_capacity self.old.claims }
        ensures plan { self.new.plan ≡ self.old.plan }
    {
        match made {
            Made::Hole {
                at,
                lead,
                position,
                waits,
            } => self.make_hole(owner, parent, at, lead, position, waits),
            Made::Boundary {
                at,
                path,
                content,
                fallback,
            } => self.make_boundary(owner, parent, at, path, content, fallback),
        }
    }

    /// Makes what the kids of a piece come to.
    pub(crate) fn make_all(&mut self, owner: Option<u32>, parent: SegId, all: Vec<Made<'a>>)
        requires live { IsLive self.old.segments parent }
        requires owner { IsParent self.old.boundaries owner }
        requires room { HasRoomFor (length all.items) self.old }
        ensures made { core_of self.new ≡ spec.with_all_made owner parent all.entry.items (core_of self.old) }
        ensures plan { self.new.plan ≡ self.old.plan }
    {
        'kids: for made in all {
            self.make(owner, parent, made);
        }
    }
}

/// A segment of this owner was made.
fn own_one(own: &mut IdLists, owner: Option<u32>)
    requires { 0 < own.old.spare_ids }
    ensures { own.new ≡ owned owner own.old }
{
    let segment = own.add_id();
    if let Some(boundary) = owner {
        if boundary < own.list_count() {
            own.push(boundary, segment);
        }
    }
}
