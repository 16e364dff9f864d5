// Copies of names.
#![tactic(auto)]

pub mod names;
