// The field call, as the look-ups in bsii_file: the whole file is read first, and the table is left all zero.
#![tactic(auto)]

pub mod answers;
pub mod fields;
