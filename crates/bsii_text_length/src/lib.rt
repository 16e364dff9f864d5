// How long the texts of strings and encoded words are.
#![tactic(auto)]

pub mod strings;
pub mod words;
