// Elements that are numbers of one width.
ghost use Rattle.std.proofs.Math.Option.{some};
ghost use Rattle.std.specs.Prelude.{◌≡◌, drop};
ghost use Rattle.bsii_format.specs.Types.{width as width_of, arity as arityOf, numbers, many};
ghost use Rattle.bsii_format.specs.Values.{element_parser, shape_parser};
ghost use Rattle.bsii_format.specs.Calls.{numeric_datum};
ghost use Rattle.bsii_string.specs.Answers.{end_of};
ghost use Rattle.bsii_value.specs.Kinds.{numeric_is};
ghost use Rattle.bsii_string.specs.NumbersAt.{numbers_at};
ghost use Rattle.bsii_element.specs.Cases.{datum_is, element_is, int3_of};
ghost use Rattle.bsii_element.specs.Decoded.{decoded};

use crate::answers::{Element, Int3};
use bsii_float::floats::{Bits, bits_at, float_of, floats_of};
use bsii_string::answers::Refusal;
use bsii_string::at::{u8_at, u16_at, u32_at, u64_at};
use bsii_string::numbers::le_u32;
use bsii_value::types::{Numeric, arity, width};
use bsii_value::values::{numbers_end, numeric_end, product};

fn int3_of(bits: Bits<3>) -> Int3
    ensures { result ≡ int3_of bits }
{
    let [a, b, c] = bits.items;
    Int3 {
        a: a.cast_signed(),
        b: b.cast_signed(),
        c: c.cast_signed(),
    }
}

// The element that the bytes start with, where they are there.
fn numeric_of(raw: &[u8], n: Numeric) -> Element
    ensures { datum_is result ≡ numeric_datum (numeric_is n) (numbers_at (arityOf (numeric_is n)) (width_of (numeric_is n)) raw.now 0) }
{
    match n {
        Numeric::Float => Element::Float(float_of(u32_at(raw, 0))),
        Numeric::FloatVec2 => Element::FloatVec2(floats_of(bits_at(raw))),
        Numeric::FloatVec3 => Element::FloatVec3(floats_of(bits_at(raw))),
        Numeric::FloatVec4 => Element::FloatVec4(floats_of(bits_at(raw))),
        Numeric::FloatVec7 => Element::FloatVec7(floats_of(bits_at(raw))),
        Numeric::FloatVec8 => Element::FloatVec8(floats_of(bits_at(raw))),
        Numeric::Int32 => Element::Int32(u32_at(raw, 0).cast_signed()),
        Numeric::Int32Vec3 => Element::Int32Vec3(int3_of(bits_at(raw))),
        Numeric::UInt32 => Element::UInt32(u32_at(raw, 0)),
        Numeric::UInt16 => Element::UInt16(u16_at(raw, 0)),
        Numeric::Int64 => Element::Int64(u64_at(raw, 0).cast_signed()),
        Numeric::UInt64 => Element::UInt64(u64_at(raw, 0)),
        Numeric::Bool => Element::Bool(u8_at(raw, 0) != 0),
        Numeric::Enum => Element::Enum(u32_at(raw, 0)),
    }
}

pub fn numeric(s: &[u8], at: usize, n: Numeric) -> Result<Element, Refusal>
    ensures { element_is result ≡ decoded at (element_parser (numbers (numeric_is n)) at (drop at s.now)) }
{
    numeric_end(s, at, n)?;
    Ok(numeric_of(&s[at..], n))
}

// The end of an array of numbers, which is one row of them.
// Beside bsii_value's array_parser: called from here too, that one is not compiled into value_parser, and a reading took 7 % more.
pub fn number_array(part: &[u8], form: Numeric) -> Result<usize, Refusal>
    ensures { result ≡ end_of (shape_parser (some (many (numbers (numeric_is form)))) 0 part.now) }
{
    let (n, next) = le_u32(part, 0)?;
    numbers_end(part, next, product(n, arity(form)), width(form))
}
