// Values that are numbers, and rows of them.
ghost use Rattle.std.specs.Prelude.{◌≡◌, ◌+◌, ◌*◌, ◌≤◌, length, drop};
ghost use Rattle.bsii_format.specs.Types.{width as width_of, arity as arityOf, numbers};
ghost use Rattle.bsii_format.specs.Values.{element_parser};
ghost use Rattle.bsii_format.specs.File.{length_limit};
ghost use Rattle.bsii_value.specs.Kinds.{numeric_is};
ghost use Rattle.bsii_measure_string.specs.Measured.{measured, element_size};
ghost use Rattle.bsii_measure_value.specs.Rows.{ElementLength, RowLength, RowMeasured};

use crate::rows::index_length;
use bsii_measure_string::answers::Measured;
use bsii_number_length::numeric::numeric_length;
use bsii_string::answers::Refusal;
use bsii_value::types::{Numeric, arity, byte_count, width};
use bsii_value::values::{numbers_end, numeric_end, product};

// The element of these bytes, which were accepted. An enum value is measured by whoever has its list: 0 stands in.
fn element_length(raw: &[u8], kind: Numeric) -> usize
    ensures { ElementLength (numeric_is kind) raw.now result }
{
    match kind {
        Numeric::Enum => 0,
        _ => numeric_length(raw, kind),
    }
}

pub fn numeric_measured(s: &[u8], at: usize, kind: Numeric) -> Result<Measured, Refusal>
    requires { length s.now ≤ length_limit }
    ensures { result ≡ measured element_size (element_parser (numbers (numeric_is kind)) at (drop at s.now)) }
{
    let next = numeric_end(s, at, kind)?;
    Ok(Measured {
        at: next,
        long: element_length(&s[at..next], kind),
    })
}

// The lines of so many elements that are there: nothing can run out, so the loop of elements_measured, which tests each element, would do more.
fn rows_length(s: &[u8], start: usize, count: u32, kind: Numeric, name: usize) -> usize
    requires { (start + count * (arityOf (numeric_is kind) * width_of (numeric_is kind)) ≤ length s.now) × (length s.now ≤ length_limit) × (name ≤ length_limit) }
    ensures { RowLength s.now start count (numeric_is kind) name result }
{
    let each = byte_count(kind);
    let mut at = start;
    let mut long: usize = 0;
    for i in 0..count {
        let next = at + each;
        long += name + index_length(i) + 7 + element_length(&s[at..next], kind);
        at = next;
    }
    long
}

// A row's end is computed, as for one that is only passed.
pub fn numbers_measured(
    s: &[u8],
    start: usize,
    count: u32,
    kind: Numeric,
    name: usize,
) -> Result<Measured, Refusal>
    requires { (length s.now ≤ length_limit) × (start ≤ length s.now) × (name ≤ length_limit) }
    ensures { RowMeasured s.now start count (numbers (numeric_is kind)) name result }
{
    let next = numbers_end(s, start, product(count, arity(kind)), width(kind))?;
    Ok(Measured {
        at: next,
        long: rows_length(s, start, count, kind, name),
    })
}
