//! Segments: the parts of a page that are sent by themselves, with where each stands in another.
#![tactic(auto)]

mod laws;
mod linking;
mod links;
mod marks;
mod segment;
mod segments;

pub use laws::laws_of_kids;
pub use marks::Marks;
pub use segment::{Flags, Mark, SegId, SegKind, SegView};
pub use segments::Segments;

#[cfg(test)]
mod tests;
