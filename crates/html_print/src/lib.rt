//! The printing of tags and texts as React's server renderer prints them.
//!
//! A text that follows a text is kept apart from it by `<!-- -->`, so that a reader of the page finds two texts. Each call
//! appends to bytes that are there; one that finds no memory may leave a part of what it was to append.
#![tactic(auto)]

mod tags;
mod texts;

pub use tags::{is_void_name, push_end_tag, push_start_tag, push_void_tag};
pub use texts::{push_separator, push_text};

#[cfg(test)]
mod tests;
