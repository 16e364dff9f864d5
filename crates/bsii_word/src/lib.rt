// Encoded words, and ids, which are made of them.
#![tactic(auto)]

pub mod words;
