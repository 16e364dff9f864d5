// Values that are one or more numbers, by the bytes that were accepted for them.
ghost use Rattle.std.specs.Prelude.{◌+◌, ◌≤◌, length};
ghost use Rattle.bsii_value.specs.Kinds.{numeric_is};
ghost use Rattle.bsii_numeric.specs.Written.{NumericStored, NumericWritten};

use crate::integers::store_int_vec3;
use bsii_float::floats::{bits_at, floats_of};
use bsii_float_text::{store_float, store_floats, store_placement, store_vec7};
use bsii_number_length::numeric::numeric_length;
use bsii_string::at::{u8_at, u16_at, u32_at, u64_at};
use bsii_value::types::Numeric;
use bsii_window::window::{Overlap, further, overlap_of, put_all};
use bsii_write::numbers::{store_bool, store_i32, store_i64, store_or_nil};

// The element of these bytes, which were accepted, where there is room for any. An enum's text is a string of its definition's list: nothing is stored of it.
pub fn store_numeric(out: &mut [u8], to: usize, raw: &[u8], kind: Numeric) -> usize
    requires { to + 201 ≤ length out.old }
    ensures { NumericStored (numeric_is kind) raw.now out.old to result out.new }
{
    match kind {
        Numeric::Float => store_float(out, to, u32_at(raw, 0)),
        Numeric::FloatVec2 => {
            let v = bits_at::<2>(raw);
            store_floats(out, to, floats_of(v), v)
        }
        Numeric::FloatVec3 => {
            let v = bits_at::<3>(raw);
            store_floats(out, to, floats_of(v), v)
        }
        Numeric::FloatVec4 => {
            let v = bits_at::<4>(raw);
            store_floats(out, to, floats_of(v), v)
        }
        Numeric::FloatVec7 => {
            let v = bits_at(raw);
            store_vec7(out, to, floats_of(v), v)
        }
        Numeric::FloatVec8 => {
            let v = bits_at(raw);
            store_placement(out, to, floats_of(v), v)
        }
        Numeric::Int32 => store_i32(out, to, u32_at(raw, 0)),
        Numeric::Int32Vec3 => store_int_vec3(out, to, bits_at(raw)),
        Numeric::UInt32 => store_or_nil(out, to, u32_at(raw, 0) as u64, 0xffff_ffff),
        Numeric::UInt16 => store_or_nil(out, to, u16_at(raw, 0) as u64, 0xffff),
        Numeric::Int64 => store_i64(out, to, u64_at(raw, 0)),
        Numeric::UInt64 => store_or_nil(out, to, u64_at(raw, 0), 0xffff_ffff_ffff_ffff),
        Numeric::Bool => store_bool(out, to, u8_at(raw, 0)),
        Numeric::Enum => to,
    }
}

// By a copy, for a text that may lie across an edge of the window.
fn put_numeric(out: &mut [u8], at: usize, raw: &[u8], kind: Numeric) -> usize
    ensures { NumericWritten (numeric_is kind) raw.now out.old at result out.new }
{
    let mut text = [0u8; 201];
    let count = store_numeric(&mut text, 0, raw, kind);
    put_all(out, at, &text[..count])
}

// The same into a window: where all of it lies inside, or all of it past the end, nothing is copied.
pub fn write_numeric(out: &mut [u8], at: usize, raw: &[u8], kind: Numeric) -> usize
    ensures { NumericWritten (numeric_is kind) raw.now out.old at result out.new }
{
    let place = overlap_of(out.len(), at, 201);
    match place {
        Overlap::Past => further(at, numeric_length(raw, kind)),
        Overlap::Across => put_numeric(out, at, raw, kind),
        Overlap::Inside(start) => store_numeric(out, start, raw, kind) + 0x8000_0000_0000_0000,
    }
}
