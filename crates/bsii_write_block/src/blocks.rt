// Data blocks.
ghost use Rattle.std.specs.Prelude.{◌+◌, ◌≤◌, length};
ghost use Rattle.bsii_format.specs.Text.{value_text};
ghost use Rattle.bsii_write_block.specs.Blocks.{FieldTurned, FieldsWritten, BodyWritten, BlockWritten, SameFields};

use bsii_base38::CharPairs;
use bsii_definition::pairs::{Pair, pair_at, same_count};
use bsii_format::Cause;
use bsii_lines::fields::write_field;
use bsii_opening::blocks::write_opening;
use bsii_prototype::answers::NAME;
use bsii_prototype::skip::fields_at;
use bsii_skip::skip_id;
use bsii_string::answers::{Refusal, refused};
use bsii_window::window::put_all;
use bsii_write_value::values::Lines;

// Where the walk along a block's fields is: at these definitions, in force and last, at this value, with its text behind this position.
#[derive(Clone, Copy)]
pub struct FieldPlace {
    pub field: usize,
    pub last_field: usize,
    pub at: usize,
    pub to: usize,
}

// The next field, if there is one.
fn write_next(
    chars: &CharPairs,
    out: &mut [u8],
    s: &[u8],
    version: u32,
    p: FieldPlace,
) -> Result<Option<FieldPlace>, Refusal>
    ensures { FieldTurned value_text version s.now p out.old result out.new }
{
    match pair_at(s, p.field, p.last_field) {
        Pair::Ends => Ok(None),
        // Lists of two lengths are refused before.
        Pair::Uneven => Ok(None),
        Pair::Both {
            type_id,
            last,
            next,
            last_next,
        } => {
            let Some(lines) = write_field(chars, out, p.to, s, p.at, version, type_id, last) else {
                return Err(refused(Cause::EnumValue, p.at));
            };
            Ok(Some(FieldPlace {
                field: next,
                last_field: last_next,
                at: lines.at,
                to: lines.to,
            }))
        }
    }
}

// The fields of the values from `start` on, which stand under the definitions from `fields` on and are named by those from `last_fields` on.
fn write_fields(
    chars: &CharPairs,
    out: &mut [u8],
    to: usize,
    s: &[u8],
    version: u32,
    start: usize,
    fields: usize,
    last_fields: usize,
) -> Result<Lines, Refusal>
    ensures { FieldsWritten value_text version s.now start fields last_fields out.old to result out.new }
{
    let mut p = FieldPlace {
        field: fields,
        last_field: last_fields,
        at: start,
        to,
    };
    while let Some(next) = write_next(chars, out, s, version, p)? {
        p = next;
    }
    Ok(Lines { at: p.at, to: p.to })
}

// A block whose definitions start at `fields`, with its name from `name` to `last_fields`, where the last ones start, and its id from `id` to `start`.
fn write_body(
    chars: &CharPairs,
    out: &mut [u8],
    to: usize,
    s: &[u8],
    version: u32,
    id: usize,
    start: usize,
    fields: usize,
    name: usize,
    last_fields: usize,
) -> Result<Lines, Refusal>
    requires { (id ≤ start) × (start ≤ length s.now) × (name ≤ last_fields) × (last_fields ≤ length s.now) }
    ensures { BodyWritten value_text version s.now id start fields name last_fields out.old to result out.new }
{
    let opening = write_opening(chars, out, to, &s[name..last_fields], &s[id..start]);
    let body = write_fields(chars, out, opening, s, version, start, fields, last_fields)?;
    Ok(Lines {
        at: body.at,
        to: put_all(out, body.to, b"}\n"),
    })
}

// One definition is in force and last, or both have the same number of fields.
fn same_fields(s: &[u8], in_force: usize, last: usize, fields: usize, last_fields: usize) -> bool
    ensures { SameFields s.now in_force last fields last_fields result }
{
    in_force == last || same_count(s, fields, last_fields)
}

// The block at an offset whose id starts at `id`; its definition in force and its last one stand at these offsets.
#[tactic(auto, using(crate::proofs::BlockLaws::head_inside, bsii_write_value::proofs::LineLaws::id_moves))]
pub fn write_data_block(
    chars: &CharPairs,
    out: &mut [u8],
    to: usize,
    s: &[u8],
    version: u32,
    offset: usize,
    id: usize,
    in_force: usize,
    last: usize,
) -> Result<Lines, Refusal>
    ensures { BlockWritten value_text version s.now offset id in_force last out.old to result out.new }
{
    let fields = fields_at(s, in_force)?;
    let last_fields = fields_at(s, last)?;
    let start = skip_id(s, id)?;
    if !same_fields(s, in_force, last, fields, last_fields) {
        return Err(refused(Cause::FieldCount, offset));
    }
    write_body(
        chars,
        out,
        to,
        s,
        version,
        id,
        start,
        fields,
        last + NAME,
        last_fields,
    )
}
