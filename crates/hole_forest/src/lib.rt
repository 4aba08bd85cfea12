//! Forests with holes: what is printed of a page in pieces, as elements and texts in which numbered holes and boundaries
//! stand.
#![tactic(auto)]

mod filling;
mod forest;
mod printing;
mod sheet;
#[cfg(test)]
mod tests;

pub use filling::fill;
pub use forest::{Cut, Flags, HForest, HNode};
pub use printing::push_printed;
