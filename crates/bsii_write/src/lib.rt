// Writers of strings and whole numbers, as the text's definition has them, for all bytes and values.
#![tactic(auto)]

pub mod numbers;
pub mod strings;
