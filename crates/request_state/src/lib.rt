//! The state of a page that is being rendered, with all that can happen to it: settlements, claims, pieces and flushes.
#![tactic(auto)]

mod claiming;
mod closing;
mod committing;
mod failing;
mod flushing;
mod job;
mod making;
mod reclaiming;
mod settling;
mod state;

pub use claiming::StaleWork;
pub use closing::Busy;
pub use committing::CommitRefused;
pub use flushing::Flushed;
pub use job::{Claim, Job, Place};
pub use making::{Made, Twin};
pub use state::{Fate, State};
