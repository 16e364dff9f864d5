// The calls for programs in other languages. Nothing is decided here: each export calls the proved call of its name and copies the answer
// into a struct of C's layout.
#![tactic(auto)]

pub mod calls;
pub mod elements;
pub mod forecast;
pub mod index;
