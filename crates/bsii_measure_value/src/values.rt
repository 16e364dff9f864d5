// Values by type.
ghost use Rattle.std.proofs.Math.Option.{some};
ghost use Rattle.std.specs.Prelude.{◌≡◌, ◌≤◌, length};
ghost use Rattle.bsii_format.specs.Types.{many};
ghost use Rattle.bsii_format.specs.File.{length_limit};
ghost use Rattle.bsii_value.specs.Kinds.{kind_is};
ghost use Rattle.bsii_measure_value.specs.Rows.{RowMeasured, line_of, Short, ShapeMeasured, ValueMeasured};

use crate::numeric::{numbers_measured, numeric_measured};
use crate::rows::elements_measured;
use bsii_base38::CharPairs;
use bsii_digits::decimal_count;
use bsii_format::Cause;
use bsii_measure_string::answers::Measured;
use bsii_measure_string::strings::string_measured;
use bsii_measure_string::words::{encoded_measured, id_measured};
use bsii_string::answers::{Refusal, refused};
use bsii_string::numbers::le_u32;
use bsii_value::types::{Kind, Shape, shape_of};

fn row_measured(
    chars: &CharPairs,
    s: &[u8],
    start: usize,
    count: u32,
    kind: Kind,
    name: usize,
) -> Result<Measured, Refusal>
    requires { (length s.now ≤ length_limit) × (start ≤ length s.now) × (name ≤ length_limit) }
    ensures { RowMeasured s.now start count (kind_is kind) name result }
{
    match kind {
        Kind::Numbers(n) => numbers_measured(s, start, count, n, name),
        _ => elements_measured(chars, s, start, count, kind, name),
    }
}

// The count's line, and the elements'.
fn array_measured(
    chars: &CharPairs,
    s: &[u8],
    at: usize,
    kind: Kind,
    name: usize,
) -> Result<Measured, Refusal>
    requires { (length s.now ≤ length_limit) × (at ≤ length s.now) × (name ≤ length_limit) }
    ensures { ShapeMeasured s.now at (some (many (kind_is kind))) name result }
{
    let (n, first) = le_u32(s, at)?;
    let row = row_measured(chars, s, first, n, kind, name)?;
    Ok(Measured {
        at: row.at,
        long: name + 5 + decimal_count(n as u64) + row.long,
    })
}

// The line of a single element.
fn line(element: Result<Measured, Refusal>, name: usize) -> Result<Measured, Refusal>
    requires { Short element × (name ≤ length_limit) }
    ensures { result ≡ line_of name element }
{
    let Measured { at, long } = element?;
    Ok(Measured {
        at,
        long: name + 5 + long,
    })
}

pub fn value_measured(
    chars: &CharPairs,
    s: &[u8],
    at: usize,
    version: u32,
    type_id: u32,
    name: usize,
) -> Result<Measured, Refusal>
    requires { (length s.now ≤ length_limit) × (at ≤ length s.now) × (name ≤ length_limit) }
    ensures { ValueMeasured version s.now at type_id name result }
{
    let Some(shape) = shape_of(version, type_id) else {
        return Err(refused(Cause::UnlistedType, at));
    };
    match shape {
        // The arms of element_measured once more, each returning by itself: bsii_value's value_parser says why.
        Shape::One(kind) => match kind {
            Kind::Numbers(n) => return line(numeric_measured(s, at, n), name),
            Kind::String => return line(string_measured(s, at), name),
            Kind::EncodedString => return line(encoded_measured(chars, s, at), name),
            Kind::Id => return line(id_measured(chars, s, at), name),
        },
        Shape::Many(kind) => return array_measured(chars, s, at, kind, name),
    }
}
