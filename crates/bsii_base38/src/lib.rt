// Digits to base 38, two at a time: a table of the characters of each remainder by 38 * 38.
#![tactic(auto)]

mod table;

ghost use Rattle.std.specs.Prelude.{◌≡◌, ◌<◌, ◌/◌, ◌%◌};
ghost use Rattle.bsii_base38.specs.Pairs.{pair_of, CharPairs as Rule, has_zero, low_zero};

use crate::table::CHAR_PAIRS;

// The table. That each entry is what the rule says is part of the type: who is lent one need not ask for it.
#[derive(Clone, Copy)]
pub struct CharPairs {
    pub entries: [u16; 1444],
    pub ghost rule: { Rule entries },
}

impl CharPairs {
    // A constant is built on the stack for each use, so a walk over a file takes the table once and lends it down.
    pub fn new() -> CharPairs
        ensures { Rule result.entries }
    {
        CharPairs {
            entries: CHAR_PAIRS,
        }
    }

    pub fn pair_at(&self, r: u64) -> u16
        requires { r < 1444 }
        ensures { result ≡ pair_of r }
    {
        self.entries[r as usize]
    }

    // Whether one of the two digits is 0.
    pub fn has_zero(&self, r: u64) -> bool
        requires { r < 1444 }
        ensures { result ≡ has_zero r }
    {
        self.pair_at(r) & 0x8080 != 0
    }

    // Whether the lower digit is 0.
    pub fn low_zero(&self, r: u64) -> bool
        requires { r < 1444 }
        ensures { result ≡ low_zero r }
    {
        self.pair_at(r) & 0x80 != 0
    }
}

// The byte that is printed first.
pub fn first(pair: u16) -> u8
    ensures { result ≡ pair % 256 }
{
    (pair % 256) as u8
}

pub fn second(pair: u16) -> u8
    ensures { result ≡ pair / 256 }
{
    (pair / 256) as u8
}
