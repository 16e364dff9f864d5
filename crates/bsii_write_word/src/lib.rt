// Encoded words. A store asks for room for the longest text that a word can have; a writer asks nothing. Both have what the text's definition has where the
// format accepts the word (specs/Words of bsii_text_length).
#![tactic(auto)]

pub mod words;
