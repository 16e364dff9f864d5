// Ids. A store asks for room for the longest text that its bytes can have; a writer asks nothing. Both have what the text's definition has where the format
// accepts the bytes (specs/Ids).
#![tactic(auto)]

pub mod ids;
