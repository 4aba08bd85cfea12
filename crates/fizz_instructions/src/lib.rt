//! The instructions of a page: scripts that put late content into its place, after those of React's server renderer.
//! They are written and read here. What they do to a document is said where documents are.
#![tactic(auto)]

mod functions;
mod instruction;
mod laws;
mod printing;
mod reading;

pub use instruction::{Instruction, SentFunctions};
pub use laws::laws_of_instructions;
pub use printing::push_script;
pub use reading::{BodyFault, read_script_body};

#[cfg(test)]
mod tests;
