//! Laws of what a page shows: the positions of an expansion, some of whose segments and boundaries are still to come, and
//! what the page's instructions make of them.
#![tactic(auto)]

mod showing;

pub use showing::{laws_of_growth, laws_of_shown_edits};
