//! Documents as trees: a document of elements and texts with its printing, and a document that is edited, whose nodes
//! have ids.
#![tactic(auto)]

mod boundary;
mod chain;
mod digest;
mod document;
mod dom;
mod edits;
mod entry;
mod ids;
mod node;
mod printing;
mod queries;
mod spine;
#[cfg(test)]
mod tests;

pub use document::{Doc, DocNode, DocPart};
pub use dom::{Dom, InsertRefused, laws_of_walks};
pub use node::{DomNode, Mark, NewNode, NodeId};
pub use printing::print_doc;
