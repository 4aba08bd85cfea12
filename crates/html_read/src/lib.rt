//! The tokens of a printed page, read from a stream that comes in pieces of any length.
#![tactic(auto)]

mod building;
mod fault;
mod laws;
mod machine;
mod place;
mod reader;
mod rests;
#[cfg(test)]
mod tests;
mod token;
mod walk;
mod words;

pub use fault::{FinishFault, ReadFault, ReadKind};
pub use html_names::CommentKind;
pub use laws::laws_of_tokens;
pub use reader::Reader;
pub use rests::laws_of_rests;
pub use token::{Body, Token};
