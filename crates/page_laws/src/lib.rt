//! Laws of pages: documents without the ids of their nodes, pages whose boundaries are wholes, and that the page's
//! instructions edit them at the one place of an id.
#![tactic(auto)]

mod edits;
mod finding;
mod joins;
mod places;
mod printing;
mod reveals;
mod starts;
#[cfg(test)]
mod tests;
mod views;

pub use edits::{laws_of_absent_ids, laws_of_clean_pages, laws_of_edits, laws_of_weights};
pub use finding::{laws_of_finding, laws_of_page_ids};
pub use joins::{laws_of_joins, laws_of_page_joins};
pub use places::{laws_of_items, laws_of_rest_places, laws_of_shells};
pub use printing::laws_of_printed_documents;
pub use reveals::{laws_of_kept_reveals, laws_of_reveals};
pub use starts::{laws_of_first_bytes, laws_of_starts};
pub use views::{laws_of_ends, laws_of_joined_views, laws_of_page_views};
