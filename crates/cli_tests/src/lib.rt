//! Tests of the program: calls of its words over files, an output and notes in memory.
#![tactic(auto)]

#[cfg(test)]
mod calls;
#[cfg(test)]
mod hostile;
#[cfg(test)]
mod options;
#[cfg(test)]
mod pages;
#[cfg(test)]
mod renders;
#[cfg(test)]
mod shows;
#[cfg(test)]
mod trees;
#[cfg(test)]
mod words;
