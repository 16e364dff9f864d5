// What a save will need, told beforehand: the text call's own first walk, with what it has added up.
//
// One walk reads the file and measures its text. Where an id is defined again, the last definitions are known only once the file is read: then the writing
// walk is made as well, with an empty window, to measure and to meet refusals 8 and 9.
#![tactic(auto)]

pub mod answers;
pub mod forecast;
pub mod length;
