//! Tests of component files from their text on: they go through several crates, and each shows what a page's author
//! sees.
#![tactic(auto)]

#[cfg(test)]
mod checks;
#[cfg(test)]
mod pages;
#[cfg(test)]
mod pieces;
#[cfg(test)]
mod scripts;
#[cfg(test)]
mod trees;
#[cfg(test)]
mod values;
#[cfg(test)]
mod whole_pages;
