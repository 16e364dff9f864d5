// Field definitions for the text: a value stands under the definition in force, and is named by the last one, whose enum list gives its string.
//
// Definitions were accepted before, so nothing is checked again. Each function takes the whole file and positions, any positions, and answers for
// every input; its contract says what the answer means where the format's readers accept.
#![tactic(auto)]

pub mod enums;
pub mod pairs;
