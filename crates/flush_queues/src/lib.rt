//! What is still to be sent of a page, and the flush that sends it, in the order of React's server renderer.
#![tactic(auto)]

mod flow;
mod flushing;
mod frame;
mod output;
mod page;
mod printing;
mod queues;
mod sending;
mod telling;

pub use queues::{Queue, Queues};

#[cfg(test)]
mod tests;
