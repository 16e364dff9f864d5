// Floats that are whole numbers.
ghost use Rattle.std.specs.Prelude.{◌≡◌};
ghost use Rattle.bsii_format.specs.Floats.{float_text};
ghost use Rattle.bsii_float.specs.Texts.{number_text};

// A whole number of a size that is written in decimal.
#[derive(Drop)]
pub struct Whole {
    pub negative: bool,
    pub size: u32,
}

// What a float is in the text: a whole number, or None for any other, which is written as its bits. Below 127 the exponent's field is that of a
// float below 1, above 150 that of one from 2^24 on, of an infinity or of a NaN. Between, the significand has 150 - field binary places.
pub fn whole_number(bits: u32) -> Option<Whole>
    ensures { number_text «bits» result ≡ float_text «bits» }
{
    let negative = 0x8000_0000 <= bits;
    let field = bits % 0x8000_0000 / 0x80_0000;
    if bits % 0x8000_0000 == 0 {
        return Some(Whole { negative, size: 0 });
    }
    // By one test for both, the text of a fraction takes 3 instructions more.
    if field < 127 {
        return None;
    }
    if 150 < field {
        return None;
    }
    let unit = 1 << (150 - field);
    let significand = 0x80_0000 + bits % 0x80_0000;
    if significand % unit != 0 {
        return None;
    }
    let size = significand / unit;
    if 10_000_000 < size {
        return None;
    }
    Some(Whole { negative, size })
}
