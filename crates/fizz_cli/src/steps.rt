//! The steps of commands: what they do with their files, one after another.

mod page_file;
mod page_forest;
mod program_file;
mod read_file;
mod script_file;
mod sources;

pub(crate) use page_file::{read_page, run_page, settled_doc};
pub(crate) use page_forest::shown_page;
pub(crate) use sources::{Sources, read_sources};
