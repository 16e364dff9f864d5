// Strings, encoded words and ids, read and measured in one go: where they end, and how long their texts are.
#![tactic(auto)]

pub mod answers;
pub mod strings;
pub mod words;
