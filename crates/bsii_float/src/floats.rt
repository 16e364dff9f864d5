// Floats and the values that are made of several of them, each beside its bits.
ghost use Rattle.std.specs.Prelude.{◌≡◌, from_bits};
ghost use Rattle.std.specs.Float.{binary32};
ghost use Rattle.bsii_float.specs.Bits.{bits_of, floats_of, bits_at};

use bsii_string::at::u32_at;

// N floats, one behind the other.
#[derive(Drop)]
pub struct Floats<const N: usize> {
    pub items: [f32; N],
}

// The bits of N floats.
#[derive(Clone, Copy)]
pub struct Bits<const N: usize> {
    pub items: [u32; N],
}

pub type Vec2 = Floats<2>;

pub type Vec3 = Floats<3>;

pub type Vec4 = Floats<4>;

// A position and a turn, as version 1 has them.
pub type Vec7 = Floats<7>;

// A position, a sector and a turn, as they stand in the file.
pub type Placement = Floats<8>;

// The float of any 32 bits. from_bits leaves a NaN's open, so those are told apart first: the exponent's field is full, and more is set.
pub fn float_of(bits: u32) -> f32
    ensures { result ≡ from_bits binary32 bits }
{
    if 0x7f80_0000 < bits % 0x8000_0000 {
        f32::NAN
    } else {
        f32::from_bits(bits)
    }
}

// The bits of a float. There is one NaN, which has lost its bits: those given beside stand in.
pub fn bits_of(f: f32, nan: u32) -> u32
    ensures { result ≡ bits_of f nan }
{
    if f.is_nan() { nan } else { f.to_bits() }
}

// Loops fill the arrays, here and below: `map` of an array asks for a bound on N, and a proof over `array::from_fn` has to follow the closure from call
// to call, so it is no plainer.
pub fn floats_of<const N: usize>(bits: Bits<N>) -> Floats<N>
    ensures { result ≡ floats_of bits.entry }
{
    let mut items = [0.0; N];
    for i in 0..N {
        items[i] = float_of(bits.items[i]);
    }
    Floats { items }
}

// The bits that a value is read from: those of its floats, from the slice's start on.
pub fn bits_at<const N: usize>(raw: &[u8]) -> Bits<N>
    ensures { result ≡ bits_at N raw.now }
{
    let mut items = [0; N];
    for i in 0..N {
        items[i] = u32_at(raw, 4 * i);
    }
    Bits { items }
}
