//! The kids of segments as doubly linked lists.

/// By segment: its first and its last live kid; of a live kid, the ones before and after it.
#[derive(Debug, Drop)]
pub(crate) struct Links {
    pub(crate) first: Vec<Option<u32>>,
    pub(crate) last: Vec<Option<u32>>,
    pub(crate) previous: Vec<Option<u32>>,
    pub(crate) next: Vec<Option<u32>>,
}
