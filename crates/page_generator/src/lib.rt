//! Pages of a given size, to measure and to test with: a component file and a settling script for it. A seed decides
//! what the groups and the data of a page are, so that one seed and one size are always the same page.
#![tactic(auto)]

mod draws;
mod groups;
mod laws;
mod leaves;
mod numbers;
mod page;

pub use laws::worked_examples;
pub use page::{Generated, generate};

#[cfg(test)]
mod tests;
