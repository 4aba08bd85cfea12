//! Laws of the state of a page that is being rendered: what each call keeps. Each function does nothing: it has its laws as
//! its contract.
#![tactic(auto)]

mod transcripts;
mod works;

pub use transcripts::laws_of_transcripts;
pub use works::laws_of_standing_works;
