// The parts of a record: numbers, and bytes with their length in front. README.md gives the format.
ghost use Rattle.std.specs.Prelude.{IfSome};
ghost use Rattle.replay.specs.Parts.{Inside};

use bsii_string::at::u32_at;
use bsii_string::numbers::{left, size};

// The bytes from start to end.
#[derive(Clone, Copy)]
pub struct Part {
    pub start: usize,
    pub end: usize,
}

// The four bytes from a position on as a number: 0 where there are fewer.
pub fn number(s: &[u8], at: usize) -> u32 {
    u32_at(s, at)
}

// The part whose length stands at a position: none where the record is cut.
pub fn part_at(s: &[u8], at: usize) -> Option<Part>
    ensures { IfSome result (Inside s.now at) }
{
    if left(s, at) < 4 {
        return None;
    }
    let start = at + 4;
    let length = size(number(s, at));
    if left(s, start) < length {
        return None;
    }
    Some(Part {
        start,
        end: start + length,
    })
}

// The part's bytes: none where it is cut.
pub fn bytes_at(s: &[u8], at: usize) -> &[u8] {
    match part_at(s, at) {
        Some(part) => &s[part.start..part.end],
        None => &s[..0],
    }
}
