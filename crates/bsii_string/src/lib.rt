// Numbers, UTF-8 and strings, and what all readers answer.
//
// Each function takes the whole file and a position, any position, and answers for every input; its contract gives the answer as the
// result of the specification's reader on the bytes from there on. So do those of bsii_word and bsii_value.
#![tactic(auto)]

pub mod answers;
pub mod at;
pub mod numbers;
pub mod rows;
pub mod strings;
pub mod utf8;
