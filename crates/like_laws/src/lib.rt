//! Laws of documents that are alike: the same but for the ids of their nodes, their separators and the digests of their
//! templates. The same bytes leave alike documents after alike ones, and what is seen of these is the same but for digests.
#![tactic(auto)]

mod alike;
#[cfg(test)]
mod tests;

pub use alike::{
    laws_of_alike_runs, laws_of_alike_views, laws_of_apart_documents, laws_of_likeness,
};
