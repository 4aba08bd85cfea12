//! The top call of fizz: from the words of the command line to bytes, notes and a status.
#![tactic(auto)]

mod commands;
mod generated;
mod laws;
mod note;
mod refusal;
mod sending;
mod steps;
mod still;
mod stop;
mod summary;
mod top;

pub use fizz_words::{Command, Options};
pub use laws::{laws_of_refusals, laws_of_steps, one_document};
pub use refusal::{FileFault, PageFault, ProgramFault, Refusal, ScriptFault};
pub use top::{fizz, fizz_inline};
