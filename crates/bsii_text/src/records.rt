// The blocks of a file, and the frame around them.
ghost use Rattle.std.specs.Prelude.{◌≤◌, length};
ghost use Rattle.bsii_format.specs.File.{length_limit};
ghost use Rattle.bsii_format.specs.Text.{value_text};
ghost use Rattle.bsii_format.specs.BlockText.{every_block};
ghost use Rattle.bsii_table.specs.Rows.{Rows};
ghost use Rattle.bsii_walk.specs.Seek.{Readable};
ghost use Rattle.bsii_text.specs.Records.{BlockStep, PrototypeStep, RecordWritten, RecordsWritten, BsiiWritten};

use bsii_base38::CharPairs;
use bsii_string::answers::Refusal;
use bsii_string::numbers::size;
use bsii_table::find;
use bsii_walk::records::{RecordKind, kind_at, prototype_again};
use bsii_window::window::put_all;
use bsii_write_block::blocks::write_data_block;
use bsii_write_value::values::Lines;

// The block at an offset, of that prototype id, whose id starts at `id`.
fn write_block(
    chars: &CharPairs,
    out: &mut [u8],
    to: usize,
    s: &[u8],
    version: u32,
    offset: usize,
    table: &[u32],
    rows: usize,
    prototype_id: u32,
    id: usize,
) -> Result<Option<Lines>, Refusal>
    requires { Rows table.now rows }
    ensures { BlockStep value_text version s.now offset table.now rows prototype_id id out.old to result out.new }
{
    let Some(row) = find(table, rows, prototype_id) else {
        return Ok(None);
    };
    let under = size(row.in_force);
    let named = size(row.last);
    let lines = write_data_block(chars, out, to, s, version, offset, id, under, named)?;
    Ok(Some(lines))
}

// A prototype writes nothing, and is in force from here on.
fn pass_prototype(
    to: usize,
    s: &[u8],
    at: usize,
    table: &mut [u32],
    rows: usize,
    id: u32,
) -> Option<Lines>
    requires { (length s.now ≤ length_limit) × (at ≤ length s.now) × Rows table.old rows }
    ensures { PrototypeStep s.now at table.old rows id to result table.new }
{
    let next = prototype_again(s, at, table, rows, id)?;
    Some(Lines { at: next, to })
}

// One record: the next record's offset, and the position behind what was written; or none for the end record.
fn write_record(
    chars: &CharPairs,
    out: &mut [u8],
    to: usize,
    s: &[u8],
    version: u32,
    at: usize,
    table: &mut [u32],
    rows: usize,
) -> Result<Option<Lines>, Refusal>
    requires { (length s.now ≤ length_limit) × (at ≤ length s.now) × Rows table.old rows }
    ensures { RecordWritten value_text every_block version s.now at table.old rows out.old to result table.new out.new }
{
    match kind_at(s, at) {
        None => Ok(None),
        Some(RecordKind::Defines(id)) => Ok(pass_prototype(to, s, at, table, rows, id)),
        Some(RecordKind::Carries { id, next }) => {
            write_block(chars, out, to, s, version, at, table, rows, id, next)
        }
    }
}

// The blocks of the records from `start` on, and the position behind their text.
fn write_records(
    chars: &CharPairs,
    out: &mut [u8],
    to: usize,
    s: &[u8],
    version: u32,
    start: usize,
    table: &mut [u32],
    rows: usize,
) -> Result<usize, Refusal>
    requires { Readable version s.now start table.old rows }
    ensures { RecordsWritten value_text every_block version s.now start table.old rows out.old to result table.new out.new }
{
    let mut at = start;
    let mut here = to;
    while let Some(lines) = write_record(chars, out, here, s, version, at, table, rows)? {
        at = lines.at;
        here = lines.to;
    }
    Ok(here)
}

// The text of a file whose records start at `start`, from the window's start on, and the position behind it.
pub fn write_bsii(
    out: &mut [u8],
    s: &[u8],
    version: u32,
    start: usize,
    table: &mut [u32],
    rows: usize,
) -> Result<usize, Refusal>
    requires { Readable version s.now start table.old rows }
    ensures { BsiiWritten value_text every_block version s.now start table.old rows out.old result table.new out.new }
{
    let opening = put_all(out, 0x8000_0000_0000_0000, b"SiiNunit\n{\n");
    let chars = CharPairs::new();
    let end = write_records(&chars, out, opening, s, version, start, table, rows)?;
    Ok(put_all(out, end, b"}\n"))
}
