//! Laws of positions: what stays where more is settled, who owns a position, what is left out of a piece, and how a piece
//! is printed with what fills it. Each function does nothing: it has its laws as its contract.
#![tactic(auto)]

mod gaps;
mod later;
mod owners;
mod pages;
mod words;

pub use gaps::laws_of_gaps;
pub use later::{laws_of_later_positions, laws_of_settling};
pub use owners::laws_of_owners;
pub use pages::laws_of_pages;
pub use words::laws_of_words;
