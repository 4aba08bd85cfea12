//! The names of HTML that a page may use, and the spelling of texts in HTML and in its scripts.
//!
//! Names are bytes: an element's name is looked up as it is written. Texts are UTF-8 bytes, and what is written of
//! them and read back is UTF-8.
#![tactic(auto)]

mod attributes;
mod comments;
mod elements;
mod escape;
mod js_string;
mod names;

pub use attributes::{AttrKind, AttrName, Attribute};
pub use comments::{CommentKind, comment};
pub use elements::Element;
pub use escape::{EntityFault, laws_of_escaping, push_escaped, unescape};
pub use js_string::{laws_of_js_strings, push_js_string, read_js_string};
pub use names::{attribute, begins_element, element, is_reserved_id, laws_of_names};

#[cfg(test)]
mod tests;
