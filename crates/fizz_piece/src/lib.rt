//! The rendering of one piece of a page: what stands at a position, printed with holes where it waits and at boundaries.
#![tactic(auto)]

mod laws;
mod piece;
mod plan;
mod printing;
mod rendering;
mod sheet;
#[cfg(test)]
mod tests;
mod work;

pub use laws::laws_of_works;
pub use piece::{Kid, Piece, PieceMemory};
pub use plan::{Options, Plan};
pub use rendering::render_piece;
pub use work::{Flags, Work};
