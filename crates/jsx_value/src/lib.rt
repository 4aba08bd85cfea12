//! What the nodes of a component file stand for: values of expressions, and the shapes of positions.
#![tactic(auto)]

mod attributes;
mod component;
mod expansion_laws;
mod expression;
mod open;
mod page;
mod place;
mod scope;
mod shape;
mod spot;
mod statements;
mod val;
mod weight;

pub use expansion_laws::{laws_of_apps, laws_of_expansions, laws_of_settlements};
pub use expression::eval;
pub use place::shape_at;
pub use scope::Scope;
pub use shape::{Shape, Tree};
pub use spot::{Kin, Spot};
pub use val::Val;
pub use weight::{WeighRefused, weigh};

#[cfg(test)]
mod tests;
