// How lines open: a field's by its name, with an element's index, and a block by the line of its name and its id.
#![tactic(auto)]

pub mod blocks;
pub mod openings;
