// The ends of values in a file that was accepted: a second walk goes past them and checks no string and no word again.
//
// Each function takes the whole file and a position, any position, and answers for every input; its contract gives the answer as the
// end of an unchecked reader of specs/ on the bytes from there on. Where the format's own reader accepts, that end is the same
// (proofs/Values).
#![tactic(auto)]

ghost use Rattle.std.specs.Prelude.{◌≡◌, drop};
ghost use Rattle.bsii_format.specs.Reader.{repeat};
ghost use Rattle.bsii_string.specs.Answers.{end_of};
ghost use Rattle.bsii_value.specs.Kinds.{kind_is};
ghost use Rattle.bsii_skip.specs.Unchecked.{unchecked_id, unchecked_element, unchecked_value};
ghost use Rattle.bsii_skip.specs.Exact.{unchecked_element_exact};

use bsii_format::Cause;
use bsii_string::answers::{Refusal, refused};
use bsii_string::numbers::{le_u8, le_u32, size};
use bsii_string::rows::{Item, row_end};
use bsii_string::strings::skip_str;
use bsii_value::types::{Kind, Shape, arity, shape_of, width};
use bsii_value::values::{numbers_end, numeric_end};

pub fn skip_id(s: &[u8], at: usize) -> Result<usize, Refusal>
    ensures { result ≡ end_of (unchecked_id at (drop at s.now)) }
{
    let (n, next) = le_u8(s, at)?;
    if n == 0xff {
        return numbers_end(s, next, 1, 8);
    }
    numbers_end(s, next, size(n), 8)
}

// Numbers have nothing to check: their reader is the format's own.
pub fn skip_element(s: &[u8], at: usize, kind: Kind) -> Result<usize, Refusal>
    ensures { result ≡ end_of (unchecked_element (kind_is kind) at (drop at s.now)) }
{
    match kind {
        Kind::Numbers(n) => numeric_end(s, at, n),
        Kind::String => skip_str(s, at),
        Kind::EncodedString => numbers_end(s, at, 1, 8),
        Kind::Id => skip_id(s, at),
    }
}

// An element of a row, for kinds whose elements have no common length.
#[derive(Drop)]
struct Element(Kind);

impl Item for Element {
    ghost value = { Unit {0} };

    ghost reader = { λ e. unchecked_element (kind_is e.0) };

    ghost exact = { λ e. unchecked_element_exact (kind_is e.0) };

    fn end(&self, s: &[u8], at: usize) -> Result<usize, Refusal> {
        skip_element(s, at, self.0)
    }
}

// Numbers and words have one length each, so a product passes a row of them.
pub fn skip_elements(s: &[u8], at: usize, count: u32, kind: Kind) -> Result<usize, Refusal>
    ensures { result ≡ end_of (repeat count (unchecked_element (kind_is kind)) at (drop at s.now)) }
{
    match kind {
        Kind::Numbers(n) => numbers_end(s, at, size(count) * size(arity(n)), width(n)),
        Kind::EncodedString => numbers_end(s, at, size(count), 8),
        _ => row_end(&Element(kind), s, at, count),
    }
}

// An array's count is read here and not in a function of its own: so this one stays short enough to be compiled into its callers. A type that is not
// listed has no length that could be guessed.
pub fn skip_value(s: &[u8], at: usize, version: u32, type_id: u32) -> Result<usize, Refusal>
    ensures { result ≡ end_of (unchecked_value version type_id at (drop at s.now)) }
{
    let Some(shape) = shape_of(version, type_id) else {
        return Err(refused(Cause::UnlistedType, at));
    };
    match shape {
        Shape::One(kind) => skip_element(s, at, kind),
        Shape::Many(kind) => {
            let (n, next) = le_u32(s, at)?;
            skip_elements(s, next, n, kind)
        }
    }
}
