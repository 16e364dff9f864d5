// One element of a value.
ghost use Rattle.std.specs.Prelude.{◌≡◌, drop};
ghost use Rattle.std.proofs.Math.Option.{some};
ghost use Rattle.bsii_format.specs.Types.{string, encoded_string, id as idKind, one, many, shape_of};
ghost use Rattle.bsii_format.specs.Values.{element_parser, shape_parser};
ghost use Rattle.bsii_format.specs.Calls.{of_value, element_call};
ghost use Rattle.bsii_string.specs.Answers.{end_of};
ghost use Rattle.bsii_value.specs.Kinds.{kind_is};
ghost use Rattle.bsii_element.specs.Cases.{element_is};
ghost use Rattle.bsii_element.specs.Decoded.{decoded, answers_at};

use crate::answers::Element;
use crate::numeric::{number_array, numeric};
use bsii_base38::CharPairs;
use bsii_format::Cause;
use bsii_skip::skip_elements;
use bsii_string::answers::{Refusal, refused};
use bsii_string::at::u32_at;
use bsii_string::numbers::size;
use bsii_string::strings::str_end;
use bsii_value::types::{Kind, Shape, shape_of};
use bsii_value::values::{element_parser, value_parser};
use bsii_word::words::{encoded_str_parser, id_parser};

fn text(s: &[u8], at: usize) -> Result<Element, Refusal>
    ensures { element_is result ≡ decoded at (element_parser string at (drop at s.now)) }
{
    let next = str_end(s, at)?;
    Ok(Element::String {
        offset: at + 4,
        size: next - at - 4,
    })
}

fn word(s: &[u8], at: usize) -> Result<Element, Refusal>
    ensures { element_is result ≡ decoded at (element_parser encoded_string at (drop at s.now)) }
{
    let chars = CharPairs::new();
    let (low, _) = encoded_str_parser(&chars, s, at)?;
    Ok(Element::EncodedString(low))
}

fn id(s: &[u8], at: usize) -> Result<Element, Refusal>
    ensures { element_is result ≡ decoded at (element_parser idKind at (drop at s.now)) }
{
    let chars = CharPairs::new();
    let next = id_parser(&chars, s, at)?;
    Ok(Element::Id {
        offset: at,
        size: next - at,
    })
}

// The element that starts at a position.
fn decode(s: &[u8], at: usize, kind: Kind) -> Result<Element, Refusal>
    ensures { element_is result ≡ decoded at (element_parser (kind_is kind) at (drop at s.now)) }
{
    match kind {
        Kind::Numbers(n) => numeric(s, at, n),
        Kind::String => text(s, at),
        Kind::EncodedString => word(s, at),
        Kind::Id => id(s, at),
    }
}

// A single value has index 0 only; its faults come before that.
fn single(part: &[u8], kind: Kind, index: usize) -> Result<Element, Refusal>
    ensures { element_is result ≡ of_value index (shape_parser (some (one (kind_is kind))) 0 part.now) }
{
    if index == 0 {
        return decode(part, 0, kind);
    }
    let chars = CharPairs::new();
    element_parser(&chars, part, 0, kind)?;
    Err(refused(Cause::Absent, 0))
}

// An element of an array that was accepted, so nothing is checked on the way to it, and no refusal is met there.
fn in_array(part: &[u8], kind: Kind, index: usize) -> Result<Element, Refusal>
    ensures { answers_at (kind_is kind) part.now index (element_is result) }
{
    let count = size(u32_at(part, 0));
    if count <= index {
        return Err(refused(Cause::Absent, 0));
    }
    let start = skip_elements(part, 4, index as u32, kind)?;
    decode(part, start, kind)
}

// The end of an array of this kind. Numbers need no table of characters, and a caller may ask for many of them one by one.
fn array_end(part: &[u8], version: u32, type_id: u32, kind: Kind) -> Result<usize, Refusal>
    requires { some (many (kind_is kind)) ≡ shape_of version type_id }
    ensures { result ≡ end_of (shape_parser (some (many (kind_is kind))) 0 part.now) }
{
    if let Kind::Numbers(n) = kind {
        return number_array(part, n);
    }
    let chars = CharPairs::new();
    value_parser(&chars, part, 0, version, type_id)
}

// The element at the index of the value that the slice starts with. The value is read whole before the index is looked at.
pub fn element(version: u32, type_id: u32, part: &[u8], index: usize) -> Result<Element, Refusal>
    ensures { element_is result ≡ element_call version type_id part.now index }
{
    let Some(shape) = shape_of(version, type_id) else {
        return Err(refused(Cause::UnlistedType, 0));
    };
    match shape {
        Shape::One(kind) => single(part, kind, index),
        Shape::Many(kind) => {
            array_end(part, version, type_id, kind)?;
            in_array(part, kind, index)
        }
    }
}
