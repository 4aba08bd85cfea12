//! What a task is to do.

use fizz_piece::Flags;
use fizz_segment::SegId;
use fizz_text::Path;
use jsx_value::{Scope, Spot};

/// A position of the page: where it stands, what stands there, and the names in scope.
#[derive(Drop)]
pub struct Place<'a> {
    pub path: Path,
    pub spot: Spot<'a>,
    pub scope: Scope<'a>,
}

/// What a task that isn't claimed has: the segment that it completes, and its position twice. A claim hands one out and
/// keeps the other, so that it takes no memory.
#[derive(Drop)]
pub struct Job<'a> {
    pub segment: SegId,
    pub given: Place<'a>,
    pub kept: Place<'a>,
}

/// What is kept of a claimed task: the segment that it completes, its position, and what the work that was handed out says
/// of settlements and flags.
#[derive(Drop)]
pub struct Claim<'a> {
    pub segment: SegId,
    pub place: Place<'a>,
    pub settled: u32,
    pub flags: Flags,
}
