// The string of an enum value.
ghost use Rattle.bsii_definition.specs.Enums.{PairAt, LastPair, StringOf};

use bsii_string::answers::Text;
use bsii_string::numbers::{le_u32, quad, size};

// A pair of an enum list: its number and its string, behind which the next pair stands.
#[derive(Clone, Copy)]
pub struct EnumPair {
    pub number: u32,
    pub string: Text,
}

// A pair has eight bytes at least, so one test serves for its number and its string's length.
fn enum_pair(s: &[u8], at: usize) -> Option<EnumPair>
    ensures { PairAt s.now at result }
{
    if s.len() < 8 {
        return None;
    }
    if s.len() - 8 < at {
        return None;
    }
    let count = size(quad(s, at + 4));
    let next = at + 8 + count;
    if s.len() < next {
        return None;
    }
    Some(EnumPair {
        number: quad(s, at),
        string: Text {
            start: at + 8,
            next,
        },
    })
}

// The last pair of a number wins.
fn last_pair(s: &[u8], start: usize, count: u32, wanted: u32) -> Option<Text>
    ensures { LastPair s.now start count wanted result }
{
    let mut found = None;
    let mut at = start;
    for _ in 0..count {
        let pair = enum_pair(s, at)?;
        if wanted == pair.number {
            found = Some(pair.string);
        }
        at = pair.string.next;
    }
    found
}

// The string of a number in the enum list at an offset, behind the name of a definition of that type.
pub fn enum_string(s: &[u8], at: usize, type_id: u32, wanted: u32) -> Option<Text>
    ensures { StringOf s.now at type_id wanted result }
{
    if type_id != 0x37 {
        return None;
    }
    let Ok((count, start)) = le_u32(s, at) else {
        return None;
    };
    last_pair(s, start, count, wanted)
}
