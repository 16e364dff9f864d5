// A line of a value, or of an element of an array: of numbers or an id by the bytes that were accepted for them, of a word, of a string.
#![tactic(auto)]

pub mod lines;
