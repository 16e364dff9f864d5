// Values by type, read and measured in one go: where they end, and how long their lines are under a name of so many bytes.
//
// The file, within the length limit, a place in it and the name's length stay parameters: a struct of them would be no plainer, since the readers below take any
// bytes, and each clause would name them through the struct.
#![tactic(auto)]

pub mod numeric;
pub mod rows;
pub mod values;
