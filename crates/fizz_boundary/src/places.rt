use fizz_text::{Path, Text};
use sqlite_items::Items;

/// A boundary that is printed as pending: its id, and where it stands.
#[derive(Debug, Drop)]
pub struct Place {
    pub id: u32,
    pub path: Path,
}

/// A part that waits for a resource: the id of its placeholder, the id of the boundary that owns it, and where it stands.
#[derive(Debug, Drop)]
pub struct HolePlace {
    pub id: u32,
    pub owner: u32,
    pub path: Path,
    pub resource: Text,
}

/// What a prelude left open, and the first id that it didn't use.
#[derive(Debug, Drop)]
pub struct Places {
    pub next: u32,
    pub boundaries: Items<Place>,
    pub holes: Items<HolePlace>,
}
