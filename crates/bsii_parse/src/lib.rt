// Records, and the reading call: one walk over the file, with the scratch table for the definitions so far.
#![tactic(auto)]

pub mod parts;
pub mod reading;
pub mod walk;
