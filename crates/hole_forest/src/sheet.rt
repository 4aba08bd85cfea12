//! What is printed of a forest so far.

use crate::forest::Cut;
use sqlite_items::Items;

/// The bytes, what was cut out of them, and whether a text was printed last.
#[derive(Drop)]
pub(crate) struct Sheet {
    pub(crate) out: Vec<u8>,
    pub(crate) cuts: Items<Cut>,
    pub(crate) after_text: bool,
}
