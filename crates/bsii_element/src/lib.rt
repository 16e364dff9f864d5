// The element call: one element of a value, by the value's type and the element's index.
#![tactic(auto)]

pub mod answers;
pub mod elements;
mod numeric;
