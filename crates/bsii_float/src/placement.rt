// A placement's sums: the offset of a sector is added to a coordinate. One float holds the sectors of both coordinates.
ghost use Rattle.std.specs.Prelude.{◌≡◌, ◌<◌, from_bits};
ghost use Rattle.std.specs.Float.{binary32};
ghost use Rattle.std.specs.Float.Ieee.{add, of_int};
ghost use Rattle.bsii_format.specs.Floats.{floor_mod, floor_div, coefficient as coefficientOf, sector_offset, quieted, sector_sum};
ghost use Rattle.bsii_float.specs.Cut.{cut_size};

use crate::floats::{bits_of, float_of};

#[derive(Drop)]
pub struct Sectors {
    pub x: u32,
    pub z: u32,
}

// The size cut to a whole number, by the exponent's field: below 127 the float is below 1, below 150 the significand has 150 - field binary
// places, from 158 on the float is 2^31 at least, an infinity or a NaN.
fn cut_size(bits: u32) -> u32
    ensures { result ≡ cut_size (from_bits binary32 bits) }
{
    let field = bits % 0x8000_0000 / 0x80_0000;
    let significand = 0x80_0000 + bits % 0x80_0000;
    match field {
        0..127 => 0,
        127..150 => significand >> (150 - field),
        150..158 => significand << (field - 150),
        _ if 0x7f80_0000 < bits % 0x8000_0000 => 0,
        _ => 0x8000_0000,
    }
}

// The i32, as its two's complement.
fn coefficient(bits: u32) -> u32
    ensures { result ≡ floor_mod (coefficientOf «bits») 0x1_0000_0000 }
{
    let size = cut_size(bits);
    if bits < 0x8000_0000 {
        size.min(0x7fff_ffff)
    } else {
        size.wrapping_neg()
    }
}

// The sectors of the two coordinates, from the bits of the float that holds both.
pub fn sectors_of(bits: u32) -> Sectors
    ensures { (result.x ≡ floor_mod (coefficientOf «bits») 4096) × (result.z ≡ floor_mod (floor_div (coefficientOf «bits») 4096) 4096) × (result.x < 4096) × (result.z < 4096) }
{
    let c = coefficient(bits);
    let low = c % 4096;
    let high = c / 4096 % 4096;
    Sectors { x: low, z: high }
}

// f + 512 × (k − 2048), rounded once.
pub fn sector_sum(f: f32, k: u32) -> f32
    requires { k < 4096 }
    ensures { result ≡ add binary32 f (of_int binary32 (sector_offset k)) }
{
    f + std::num::nearest_i32_to_f32(512 * (k as i32 - 2048))
}

// The bits with bit 22 set, which are a sum's where its float is a NaN.
pub fn quiet(bits: u32) -> u32
    ensures { result ≡ quieted bits }
{
    bits | 0x40_0000
}

// The bits of a coordinate in its sector.
pub fn in_sector(bits: u32, sector: u32) -> u32
    requires { sector < 4096 }
    ensures { result ≡ sector_sum «bits» sector }
{
    bits_of(sector_sum(float_of(bits), sector), quiet(bits))
}
