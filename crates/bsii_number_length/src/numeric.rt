// Values that are one or more numbers, by the bytes that were accepted for them.
ghost use Rattle.bsii_value.specs.Kinds.{numeric_is};
ghost use Rattle.bsii_number_length.specs.Lengths.{NumericLength};

use crate::floats::{float_length, floats_length, int_vec3_length, placement_length, vec7_length};
use crate::numbers::{bool_length, i32_length, i64_length, or_nil_length};
use bsii_float::floats::bits_at;
use bsii_string::at::{u8_at, u16_at, u32_at, u64_at};
use bsii_value::types::Numeric;

// The element of these bytes, which were accepted. An enum's text is a string of its definition's list: nothing is said of it.
pub fn numeric_length(raw: &[u8], kind: Numeric) -> usize
    ensures { NumericLength (numeric_is kind) raw.now result }
{
    match kind {
        Numeric::Float => float_length(u32_at(raw, 0)),
        Numeric::FloatVec2 => floats_length(bits_at::<2>(raw)),
        Numeric::FloatVec3 => floats_length(bits_at::<3>(raw)),
        Numeric::FloatVec4 => floats_length(bits_at::<4>(raw)),
        Numeric::FloatVec7 => vec7_length(bits_at(raw)),
        Numeric::FloatVec8 => placement_length(bits_at(raw)),
        Numeric::Int32 => i32_length(u32_at(raw, 0)),
        Numeric::Int32Vec3 => int_vec3_length(bits_at(raw)),
        Numeric::UInt32 => or_nil_length(u32_at(raw, 0) as u64, 0xffff_ffff),
        Numeric::UInt16 => or_nil_length(u16_at(raw, 0) as u64, 0xffff),
        Numeric::Int64 => i64_length(u64_at(raw, 0)),
        Numeric::UInt64 => or_nil_length(u64_at(raw, 0), 0xffff_ffff_ffff_ffff),
        Numeric::Bool => bool_length(u8_at(raw, 0)),
        Numeric::Enum => 0,
    }
}
