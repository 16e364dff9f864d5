// Values by type.
ghost use Rattle.std.proofs.Math.Option.{some};
ghost use Rattle.std.specs.Prelude.{◌≡◌, ◌*◌, drop};
ghost use Rattle.bsii_format.specs.Reader.{repeat};
ghost use Rattle.bsii_format.specs.Numbers.{number};
ghost use Rattle.bsii_format.specs.Types.{numbers, many};
ghost use Rattle.bsii_format.specs.Values.{Element as ElementRead, element_parser, shape_parser, value_parser};
ghost use Rattle.bsii_format.proofs.Parsers.{element_exact};
ghost use Rattle.bsii_string.specs.Answers.{end_of};
ghost use Rattle.bsii_value.specs.Kinds.{numeric_is, kind_is};

use crate::types::{Kind, Numeric, Shape, arity, byte_count, shape_of, width};
use bsii_base38::CharPairs;
use bsii_format::Cause;
use bsii_string::answers::{Refusal, refused, short};
use bsii_string::numbers::{le_u32, left, size};
use bsii_string::rows::{Item, row_end};
use bsii_string::strings::str_end;
use bsii_word::words::{id_parser, word_end};

// The end of a row of numbers, or the first number that runs out: computed, since an array of numbers need not be walked.
pub fn numbers_end(s: &[u8], at: usize, count: usize, width: u32) -> Result<usize, Refusal>
    ensures { result ≡ end_of (repeat count (number width) at (drop at s.now)) }
{
    if width == 0 {
        return Ok(at);
    }
    let each = size(width);
    let rest = left(s, at);
    let whole = rest / each;
    if whole < count {
        let fit = whole * each;
        let part = rest - fit;
        return Err(short(at + fit, width, part));
    }
    let end = at + count * each;
    Ok(end)
}

// A product of two counts of 32 bits fits.
pub fn product(n: u32, m: u32) -> usize
    ensures { result ≡ n * m }
{
    (n as usize) * (m as usize)
}

// One value of a few numbers. Where it runs out, fewer bytes are left than all of them have: a division says which number does, and how many there are is not
// asked. So little code is compiled into each caller.
pub fn numeric_end(s: &[u8], at: usize, n: Numeric) -> Result<usize, Refusal>
    ensures { result ≡ end_of (element_parser (numbers (numeric_is n)) at (drop at s.now)) }
{
    let total = byte_count(n);
    let rest = left(s, at);
    if rest < total {
        let one = width(n);
        let each = size(one);
        let fit = rest / each * each;
        let part = rest - fit;
        return Err(short(at + fit, one, part));
    }
    let end = at + total;
    Ok(end)
}

pub fn element_parser(chars: &CharPairs, s: &[u8], at: usize, kind: Kind) -> Result<usize, Refusal>
    ensures { result ≡ end_of (element_parser (kind_is kind) at (drop at s.now)) }
{
    match kind {
        Kind::Numbers(n) => numeric_end(s, at, n),
        Kind::String => str_end(s, at),
        Kind::EncodedString => word_end(chars, s, at),
        Kind::Id => id_parser(chars, s, at),
    }
}

// An element of a row.
#[derive(Drop)]
struct Element<'a> {
    chars: &'a CharPairs,
    kind: Kind,
}

impl Item for Element<'_> {
    ghost value = { ElementRead };

    ghost reader = { λ e. element_parser (kind_is e.kind) };

    ghost exact = { λ e. element_exact (kind_is e.kind) };

    fn end(&self, s: &[u8], at: usize) -> Result<usize, Refusal> {
        element_parser(self.chars, s, at, self.kind)
    }
}

fn array_parser(chars: &CharPairs, s: &[u8], at: usize, kind: Kind) -> Result<usize, Refusal>
    ensures { result ≡ end_of (shape_parser (some (many (kind_is kind))) at (drop at s.now)) }
{
    let (n, next) = le_u32(s, at)?;
    match kind {
        Kind::Numbers(form) => numbers_end(s, next, product(n, arity(form)), width(form)),
        _ => row_end(&Element { chars, kind }, s, next, n),
    }
}

pub fn value_parser(
    chars: &CharPairs,
    s: &[u8],
    at: usize,
    version: u32,
    type_id: u32,
) -> Result<usize, Refusal>
    ensures { result ≡ end_of (value_parser version type_id at (drop at s.now)) }
{
    let Some(shape) = shape_of(version, type_id) else {
        return Err(refused(Cause::UnlistedType, at));
    };
    match shape {
        // The arms of element_parser once more: told apart here, a kind need not be read as a whole from where its parts were stored a moment before. Each
        // returns by itself: arms that join would put together a refusal, part by part, for values that are accepted.
        Shape::One(kind) => match kind {
            Kind::Numbers(n) => return numeric_end(s, at, n),
            Kind::String => return str_end(s, at),
            Kind::EncodedString => return word_end(chars, s, at),
            Kind::Id => return id_parser(chars, s, at),
        },
        Shape::Many(kind) => return array_parser(chars, s, at, kind),
    }
}
