//! The words of the command line: which command they mean, and what is told or refused where they mean none.
#![tactic(auto)]

mod command;
mod found;
mod grammar;
mod laws;
mod words;

pub use command::{Command, Options};
pub use laws::laws_of_words;
pub use words::{WordsFault, read_words};

#[cfg(test)]
mod tests;
