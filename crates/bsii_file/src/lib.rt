// Look-ups in a file. Each call reads the whole file first, so a fault anywhere in it comes before what was asked for, and leaves the
// table all zero. The calls read, clear and answer in three lines each: one function that takes the reading as a closure is no plainer.
#![tactic(auto)]

pub mod blocks;
pub mod once;
pub mod prototypes;
