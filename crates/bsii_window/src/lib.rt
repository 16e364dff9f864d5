// Bytes and digits into a window: what falls into it is stored, all of it is counted.
//
// A position counts the text's bytes from 2^63 on, where the window starts: a text may also start in front of its window. A position that would
// pass 2^64 - 1 stays there, past every window, so no writer asks anything of its caller for its sums. With an empty window a writer only measures.
//
// The window and the position stay two parameters: a struct of both would hold the `&mut`, and each contract would speak of its fields, which is no plainer.
#![tactic(auto)]

pub mod digits;
pub mod window;
