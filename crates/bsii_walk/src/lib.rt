// A second walk over a file that was read: nothing is checked again. The table holds the last definition of each id from the first walk; this one
// enters the definitions in force as it meets them.
//
// File, version, table and rows stay parameters: a struct of them would be no plainer, since it would hold the table's borrow, and each clause would speak
// of the whole before and behind a call where only the table changes.
#![tactic(auto)]

pub mod cursor;
pub mod names;
pub mod records;
pub mod seek;
