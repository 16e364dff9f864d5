// One walk that reads a file and measures its text.
#![tactic(auto)]

pub mod file;
pub mod walk;
