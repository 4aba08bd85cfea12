//! Lists that are linked in both directions.

/// By list: its first and its last id; by id: the ones before and after it, and the list in which it stands.
#[derive(Debug, Drop)]
pub(crate) struct Links {
    pub(crate) first: Vec<Option<u32>>,
    pub(crate) last: Vec<Option<u32>>,
    pub(crate) previous: Vec<Option<u32>>,
    pub(crate) next: Vec<Option<u32>>,
    pub(crate) home: Vec<Option<u32>>,
}
