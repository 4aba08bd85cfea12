//! The small types that all of fizz shares: texts, paths, attributes and hexadecimal numerals.
#![tactic(auto)]

mod attribute;
mod hexadecimal;
mod memory;
mod path;
mod text;

pub use attribute::{Attr, Attributes};
pub use hexadecimal::{HexText, hex_of};
pub use memory::OutOfMemory;
pub use path::Path;
pub use text::{NotUtf8, Text};

#[cfg(test)]
mod tests;
