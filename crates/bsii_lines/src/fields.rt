// Fields.
ghost use Rattle.bsii_format.specs.Text.{value_text};
ghost use Rattle.bsii_value.specs.Kinds.{kind_is};
ghost use Rattle.bsii_definition.specs.Pairs.{InFile};
ghost use Rattle.bsii_write_value.specs.Lines.{IndexedWritten};
ghost use Rattle.bsii_lines.specs.Lines.{VectorWritten, ArrayWritten, FieldWritten};

use bsii_base38::CharPairs;
use bsii_definition::pairs::Definition;
use bsii_line::lines::count_line;
use bsii_opening::openings::{Indexed, Plain};
use bsii_string::numbers::le_u32;
use bsii_value::types::{Kind, Shape, shape_of};
use bsii_write_value::values::{
    Lines, write_id_value, write_number, write_string_value, write_word,
};

fn write_element(
    chars: &CharPairs,
    out: &mut [u8],
    to: usize,
    s: &[u8],
    at: usize,
    kind: Kind,
    d: Definition,
    i: u32,
) -> Option<Lines>
    requires { InFile s.now d }
    ensures { IndexedWritten s.now at (kind_is kind) d i out.old to result out.new }
{
    match kind {
        Kind::Numbers(n) => write_number(out, to, s, at, n, d, Indexed(i)),
        Kind::String => write_string_value(out, to, s, at, d, Indexed(i)),
        Kind::EncodedString => write_word(chars, out, to, s, at, d, Indexed(i)),
        Kind::Id => write_id_value(chars, out, to, s, at, d, Indexed(i)),
    }
}

// `count` elements, the first one at an offset.
fn write_vector_data_value(
    chars: &CharPairs,
    out: &mut [u8],
    to: usize,
    s: &[u8],
    start: usize,
    kind: Kind,
    d: Definition,
    count: u32,
) -> Option<Lines>
    requires { InFile s.now d }
    ensures { VectorWritten s.now start (kind_is kind) d count out.old to result out.new }
{
    let mut at = start;
    let mut here = to;
    for i in 0..count {
        let line = write_element(chars, out, here, s, at, kind, d, i)?;
        at = line.at;
        here = line.to;
    }
    Some(Lines { at, to: here })
}

// The line of an array's count, and those of its elements.
fn write_array(
    chars: &CharPairs,
    out: &mut [u8],
    to: usize,
    s: &[u8],
    at: usize,
    kind: Kind,
    d: Definition,
) -> Option<Lines>
    requires { InFile s.now d }
    ensures { ArrayWritten value_text s.now at (kind_is kind) d out.old to result out.new }
{
    let Ok((n, first)) = le_u32(s, at) else {
        return None;
    };
    let lines = count_line(out, to, &s[d.name..d.name_end], n);
    write_vector_data_value(chars, out, lines, s, first, kind, d, n)
}

// The value at an offset, of the type in force, under the last definition of its field.
pub fn write_field(
    chars: &CharPairs,
    out: &mut [u8],
    to: usize,
    s: &[u8],
    at: usize,
    version: u32,
    type_id: u32,
    d: Definition,
) -> Option<Lines>
    requires { InFile s.now d }
    ensures { FieldWritten value_text version s.now at type_id d out.old to result out.new }
{
    let shape = shape_of(version, type_id)?;
    match shape {
        // Told apart here, a kind need not be read as a whole from where its parts were stored a moment before.
        Shape::One(kind) => match kind {
            Kind::Numbers(n) => write_number(out, to, s, at, n, d, Plain),
            Kind::String => write_string_value(out, to, s, at, d, Plain),
            Kind::EncodedString => write_word(chars, out, to, s, at, d, Plain),
            Kind::Id => write_id_value(chars, out, to, s, at, d, Plain),
        },
        Shape::Many(kind) => write_array(chars, out, to, s, at, kind, d),
    }
}
