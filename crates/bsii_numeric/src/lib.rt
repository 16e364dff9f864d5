// Any value that is numbers, by the bytes that were accepted for it.
#![tactic(auto)]

pub mod integers;
pub mod numeric;
