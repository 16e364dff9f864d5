// The text call: what the forecast foresees, and one walk that writes.
#![tactic(auto)]

pub mod text;
