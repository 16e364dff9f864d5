// How long the text of a value that is numbers is.
#![tactic(auto)]

pub mod floats;
pub mod numbers;
pub mod numeric;
