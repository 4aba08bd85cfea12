//! Component files that meet the rules, and refused ones with their fault. The place of a fault stands before the mark
//! `^`, which isn't part of the file.

mod answers;
mod attributes;
mod bounds;
mod definitions;
mod elements;
mod names;
mod order;
