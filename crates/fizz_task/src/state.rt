use crate::name::Name;

/// The state of a task with its payload, which a claim takes along.
#[derive(Drop)]
pub enum State<W> {
    Gone,
    Runnable(W),
    Claimed(u64),
    Waiting(Name, W),
}

/// How a task stands. A task that was never made is gone.
pub enum TaskState<'a> {
    Gone,
    Runnable,
    Claimed { claim: u64 },
    Waiting { resource: &'a Name },
}

/// A task that was claimed, with the number of the claim.
#[derive(Drop)]
pub struct Claimed<W> {
    pub task: u32,
    pub claim: u64,
    pub payload: W,
}

/// A task isn't claimed under the number given. `now` is the number under which it is claimed, if it is.
#[derive(Drop)]
pub struct StaleTask<W> {
    pub payload: W,
    pub now: Option<u64>,
}
