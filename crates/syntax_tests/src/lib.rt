//! Tests of the grammar: texts that are parsed or refused, and trees that are printed and read again.
#![tactic(auto)]

#[cfg(test)]
mod parses;
#[cfg(test)]
mod prints;
