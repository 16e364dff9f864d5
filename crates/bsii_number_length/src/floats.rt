// Floats and the values that are made of several numbers, by their bits alone: a float is made in a placement's sums only.
ghost use Rattle.std.specs.Prelude.{◌≡◌, ◌≤◌, length, map};
ghost use Rattle.bsii_format.specs.Digits.{decimal};
ghost use Rattle.bsii_format.specs.Floats.{minus_if, float_text, vec7_text, placement_text};
ghost use Rattle.bsii_format.specs.Text.{int32_text};
ghost use Rattle.bsii_float.specs.Texts.{row_text, floats_text};

use crate::numbers::i32_length;
use bsii_digits::{decimal_count, hex_count};
use bsii_float::floats::Bits;
use bsii_float::placement::{in_sector, sectors_of};
use bsii_float::whole::{Whole, whole_number};

fn whole_length(n: Whole) -> usize
    ensures { (result ≡ length (minus_if n.negative (decimal n.size))) × (result ≤ 21) }
{
    let digits = decimal_count(n.size as u64);
    if n.negative { 1 + digits } else { digits }
}

pub fn float_length(n: u32) -> usize
    ensures { (result ≡ length (float_text n)) × (result ≤ 21) }
{
    match whole_number(n) {
        Some(whole) => whole_length(whole),
        None => 1 + hex_count(n as u64) as usize,
    }
}

// Two, three or four floats.
pub fn floats_length<const N: usize>(v: Bits<N>) -> usize
    requires { (2 ≤ N) × (N ≤ 4) }
    ensures { (result ≡ length (floats_text v.entry.items)) × (result ≤ 100) }
{
    let mut length = 2 * N;
    for n in v.items {
        length += float_length(n);
    }
    length
}

pub fn vec7_length(v: Bits<7>) -> usize
    ensures { (result ≡ length (vec7_text v.items)) × (result ≤ 201) }
{
    let [a, b, c, d, e, f, g] = v.items;
    let position = Bits { items: [a, b, c] };
    let turn = Bits {
        items: [d, e, f, g],
    };
    floats_length(position) + 1 + floats_length(turn)
}

// The position with its sector, and the turn.
pub fn placement_length(v: Bits<8>) -> usize
    ensures { (result ≡ length (placement_text v.items)) × (result ≤ 201) }
{
    let [a, b, c, d, e, f, g, h] = v.items;
    let sectors = sectors_of(d);
    let position = Bits {
        items: [in_sector(a, sectors.x), b, in_sector(c, sectors.z)],
    };
    let turn = Bits {
        items: [e, f, g, h],
    };
    floats_length(position) + 1 + floats_length(turn)
}

pub fn int_vec3_length(v: Bits<3>) -> usize
    ensures { (result ≡ length (row_text (map int32_text v.items))) × (result ≤ 100) }
{
    let [a, b, c] = v.items;
    6 + i32_length(a) + i32_length(b) + i32_length(c)
}
