//! The printer of the component language, which writes a file's tree as a text of it.
//!
//! A tree is printed as words, with parentheses exactly where the grammar needs them, and the words as bytes, with a space
//! where a word would run on otherwise.
#![tactic(auto)]

mod expression;
mod file;
mod laws;
mod node;
mod stmt;
mod words;

pub use file::print;
pub use laws::{printed_bytes, printed_texts, printed_words};
