// The line of a value, or of an element of an array, at an offset of the file.
//
// Values were accepted before, so nothing is checked again but what only the text asks for: that an enum value stands in the last definition's list.
#![tactic(auto)]

pub mod values;
