//! The machine that says which document the bytes of a page leave: it reads tokens, builds a document of them, and
//! follows the page's instructions.
#![tactic(auto)]

mod building;
mod edits;
mod fault;
mod laws;
mod left_out;
mod machine;
mod run_laws;
mod settling;
mod status;
mod stop;
#[cfg(test)]
mod tests;
mod view;
mod view_laws;
mod viewing;

pub use fault::MachineFault;
pub use laws::{laws_of_documents, laws_of_printing};
pub use machine::Machine;
pub use run_laws::laws_of_runs;
pub use status::BoundaryStatus;
pub use view::{Counts, SettledRefused, View, ViewPart};
pub use view_laws::laws_of_views;
