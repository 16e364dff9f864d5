// The index of a file: checked by the reading walk, and written by that and a second one.
#![tactic(auto)]

pub mod check;
pub mod write;
