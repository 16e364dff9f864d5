// The text of a block that was read. What was read is not checked again.
#![tactic(auto)]

pub mod blocks;
