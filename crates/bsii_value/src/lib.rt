// The table of types, and values by type.
#![tactic(auto)]

pub mod types;
pub mod values;
