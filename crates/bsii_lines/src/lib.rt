// The lines of a field: one for a value, and one for each element of an array.
#![tactic(auto)]

pub mod fields;
