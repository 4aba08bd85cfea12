//! The settled tree of a page: its expansion as a forest of nodes, the failures outside all boundaries, and the final
//! document.
#![tactic(auto)]

mod expansion;
mod final_document;
mod forest;
mod laws;
mod shell;

pub use expansion::expand;
pub use final_document::final_of;
pub use forest::{FNode, Forest};
pub use laws::{laws_of_forests, worked_trees};
pub use shell::shell_failures;

#[cfg(test)]
mod tests;
