// The text of a file that was read: its records, and the frame. What was read is not checked again.
#![tactic(auto)]

pub mod records;
