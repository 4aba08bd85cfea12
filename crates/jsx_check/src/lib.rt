//! The rules that a component file must meet beside the grammar, decided.
#![tactic(auto)]

mod checking;
mod components;
mod depth;
mod event;
mod fault;
mod found;
mod laws;
mod names;
mod walk;

pub use checking::check;
pub use fault::CheckFault;
pub use laws::one_check_fault;

#[cfg(test)]
mod tests;
