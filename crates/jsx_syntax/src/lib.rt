//! The grammar of the component language: its trees, what tokens spell them, and the parser.
//!
//! A file is a list of components. A component is a function that fetches resources, binds constants, may throw, and
//! returns a node: an element, a value, or a choice or list of nodes.
#![tactic(auto)]

mod app;
mod builders;
mod closing;
mod component;
mod element;
mod expr;
mod fault;
mod file;
mod laws;
mod map;
mod matching;
mod name;
mod node;
mod operand;
mod parser;
mod part;
mod places;
mod rule;
mod stack;
mod state;

pub use app::App;
pub use expr::Expr;
pub use fault::{SyntaxFault, Wanted};
pub use file::{Component, File, Stmt};
pub use laws::{file_or_first_refused, one_file, one_syntax_fault, worked_files};
pub use name::{Entry, Name};
pub use node::{Node, Prop};
pub use parser::parse;
pub use rule::Rule;
