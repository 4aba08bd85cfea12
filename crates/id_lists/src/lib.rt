//! Lists of ids, each of which stands in one list at most. Every call but `reserve` takes constant time and no memory.
#![tactic(auto)]

mod all;
mod laws;
mod linking;
mod links;

pub use all::IdLists;
pub use laws::laws_of_lists;

#[cfg(test)]
mod tests;
