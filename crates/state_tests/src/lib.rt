//! Tests of the state of a page that is being rendered, by its calls: what is sent at each of them, what the document then
//! shows, and how each call refuses.
#![tactic(auto)]

#[cfg(test)]
mod answers;
#[cfg(test)]
mod calls;
#[cfg(test)]
mod draws;
#[cfg(test)]
mod driven;
#[cfg(test)]
mod functions;
#[cfg(test)]
mod lists;
#[cfg(test)]
mod pages;
#[cfg(test)]
mod prefixes;
#[cfg(test)]
mod programs;
#[cfg(test)]
mod rows;
#[cfg(test)]
mod shows;
#[cfg(test)]
mod sources;
#[cfg(test)]
mod steps;
#[cfg(test)]
mod tables;
