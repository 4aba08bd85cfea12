//! Tasks: which can be claimed, which are claimed and under which number, and which wait for a resource.
#![tactic(auto)]

mod columns;
mod indexing;
mod name;
mod places;
mod state;
mod tasks;

pub use name::Name;
pub use state::{Claimed, StaleTask, TaskState};
pub use tasks::Tasks;

#[cfg(test)]
mod tests;
