// Prototypes: the head of a record, the field definitions behind it, and the header of a file.
//
// The first walk over a file checks everything. The second one goes over definitions that the first has accepted, and checks no
// string again. Each function takes the whole file and a position, any position, and answers for every input.
#![tactic(auto)]

pub mod accepted;
pub mod answers;
pub mod fields;
pub mod heads;
pub mod skip;
pub mod strings;
