// How the strings of a definition are passed: with their bytes checked, or without, where they were checked before.
ghost use Rattle.std.specs.Prelude.{◌≡◌, List, ℕ, drop};
ghost use Rattle.bsii_format.specs.Reader.{Reader};
ghost use Rattle.bsii_format.specs.Strings.{str_parser};
ghost use Rattle.bsii_string.specs.Answers.{end_of, unchecked_str};
ghost use Rattle.bsii_prototype.specs.Strings.{Text, checked, unchecked};

use bsii_string::answers::Refusal;
use bsii_string::strings::{skip_str, str_end};

pub trait Strings {
    ghost reader: { Reader (List ℕ) };

    // Where the string at a position ends.
    fn end(s: &[u8], at: usize) -> Result<usize, Refusal>
        ensures { result ≡ end_of (reader at (drop at s.now)) };

    ghost text: { Text reader };
}

// The format's own reader.
#[derive(Drop)]
pub struct Checked;

impl Strings for Checked {
    ghost reader = { str_parser };

    ghost text = { checked };

    fn end(s: &[u8], at: usize) -> Result<usize, Refusal> {
        str_end(s, at)
    }
}

// For a second walk.
#[derive(Drop)]
pub struct Unchecked;

impl Strings for Unchecked {
    ghost reader = { unchecked_str };

    ghost text = { unchecked };

    fn end(s: &[u8], at: usize) -> Result<usize, Refusal> {
        skip_str(s, at)
    }
}
