//! Boundaries: the parts of a page that are sent late, with how far each is; and the places that a prelude leaves open.
#![tactic(auto)]

mod boundaries;
mod boundary;
mod marks;
mod places;

pub use boundaries::Boundaries;
pub use boundary::{BoundaryView, Mark, Part, Status};
pub use marks::Marks;
pub use places::{HolePlace, Place, Places};

#[cfg(test)]
mod tests;
