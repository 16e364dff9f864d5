// Rows of strings, words and ids.
ghost use Rattle.std.specs.Prelude.{◌≡◌, ◌≤◌, length, drop};
ghost use Rattle.bsii_format.specs.Values.{element_parser};
ghost use Rattle.bsii_format.specs.Digits.{decimal};
ghost use Rattle.bsii_format.specs.File.{length_limit};
ghost use Rattle.bsii_value.specs.Kinds.{kind_is};
ghost use Rattle.bsii_measure_string.specs.Measured.{measured, element_size};
ghost use Rattle.bsii_measure_value.specs.Rows.{RowMeasured};

use crate::numeric::numeric_measured;
use bsii_base38::CharPairs;
use bsii_digits::decimal_count;
use bsii_measure_string::answers::Measured;
use bsii_measure_string::strings::string_measured;
use bsii_measure_string::words::{encoded_measured, id_measured};
use bsii_string::answers::Refusal;
use bsii_value::types::Kind;

// Most rows are short.
pub fn index_length(i: u32) -> usize
    ensures { (result ≡ length (decimal i)) × (result ≤ 20) }
{
    if i < 10 {
        return 1;
    }
    decimal_count(i as u64)
}

// An element of any kind, told apart as in bsii_value's element_parser: a trait over the readers of both would be no plainer.
fn element_measured(chars: &CharPairs, s: &[u8], at: usize, kind: Kind) -> Result<Measured, Refusal>
    requires { length s.now ≤ length_limit }
    ensures { result ≡ measured element_size (element_parser (kind_is kind) at (drop at s.now)) }
{
    match kind {
        Kind::Numbers(n) => numeric_measured(s, at, n),
        Kind::String => string_measured(s, at),
        Kind::EncodedString => encoded_measured(chars, s, at),
        Kind::Id => id_measured(chars, s, at),
    }
}

// The lines of so many elements.
pub fn elements_measured(
    chars: &CharPairs,
    s: &[u8],
    start: usize,
    count: u32,
    kind: Kind,
    name: usize,
) -> Result<Measured, Refusal>
    requires { (length s.now ≤ length_limit) × (start ≤ length s.now) × (name ≤ length_limit) }
    ensures { RowMeasured s.now start count (kind_is kind) name result }
{
    let mut at = start;
    let mut long: usize = 0;
    for i in 0..count {
        let element = element_measured(chars, s, at, kind)?;
        long += name + index_length(i) + 7 + element.long;
        at = element.at;
    }
    Ok(Measured { at, long })
}
