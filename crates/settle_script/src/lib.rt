//! Settling scripts: the values that resources are resolved with, the lines of a script, and what its settlements make
//! known.
#![tactic(auto)]

mod event;
mod fault;
mod json;
mod outcome;
mod script;
mod value;

pub use event::Event;
pub use fault::{JoinFault, ScriptFault, ValueFault};
pub use json::value_of_json;
pub use outcome::{Outcome, Outcomes};
pub use script::{Script, read_script};
pub use value::{Entry, Value};

#[cfg(test)]
mod tests;
