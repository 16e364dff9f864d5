// A block of the walk that reads a file and adds up the length of its text, under the definitions in force.
#![tactic(auto)]

pub mod blocks;
pub mod fields;
pub mod sums;
