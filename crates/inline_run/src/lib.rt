//! Renders on one thread: a script's lines are served one after another, and what each flush appends goes to a sink.
#![tactic(auto)]

mod line;
mod run;
mod sending;
mod step;
mod work;

pub use run::{Report, RunFault, drive_inline, run_inline};
