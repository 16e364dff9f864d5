// A field by block number and name: its type and its part of the file, and the part itself.
ghost use Rattle.std.specs.Prelude.{◌≡◌, length};
ghost use Rattle.bsii_format.specs.Calls.{field_call, part_of, table_after};
ghost use Rattle.bsii_file_field.specs.Answers.{field_is};
ghost use Rattle.bsii_file_field.specs.FieldAnswers.{FieldFound, FieldPlaced, FieldRead};

use crate::answers::Field;
use bsii_field::{Value, field_index, value_at};
use bsii_file::blocks::seek_block;
use bsii_format::Cause;
use bsii_prototype::skip::fields_at;
use bsii_skip::skip_id;
use bsii_string::answers::{Refusal, refused};
use bsii_table::clear;
use bsii_walk::records::Block;

// The value of a block that was found. The name is looked for in the last definition, the value under the one in force. All of it was accepted before, so
// nothing is refused.
fn field_found(s: &[u8], version: u32, b: Block, name: &[u8]) -> Option<Value>
    ensures { FieldFound version s.now b name.now result }
{
    let named = fields_at(s, b.last).ok()?;
    let index = field_index(s, named, name)?;
    let fields = fields_at(s, b.under).ok()?;
    let start = skip_id(s, b.id).ok()?;
    value_at(s, version, fields, start, index)
}

// A `From<Value>` could not require that the value's end is behind its start, so the field is written out here and in bsii_index_field.
fn placed(s: &[u8], version: u32, b: Block, name: &[u8]) -> Result<Field, Refusal>
    ensures { FieldPlaced version s.now b name.now result }
{
    let Some(value) = field_found(s, version, b, name) else {
        return Err(refused(Cause::Absent, 0));
    };
    Ok(Field {
        type_id: value.type_id,
        part: value.at,
        part_size: value.next - value.at,
    })
}

// The answer, with the table as it was left by the search.
fn read_field(file: &[u8], table: &mut [u32], k: usize, name: &[u8]) -> Result<Field, Refusal>
    ensures { FieldRead (length table.old) file.now k name.now result }
{
    let (version, found) = seek_block(file, table, None, k)?;
    placed(file, version, found.block, name)
}

pub fn field(file: &[u8], table: &mut [u32], k: usize, name: &[u8]) -> Result<Field, Refusal>
    ensures reply { field_is file.now result ≡ field_call (length table.old) file.now k name.now }
    ensures zeros { table.new ≡ table_after table.old }
{
    let reply = read_field(file, table, k, name);
    clear(table);
    reply
}

// The value's bytes, empty exactly where `field` refuses.
pub fn field_part<'a>(file: &'a [u8], table: &mut [u32], k: usize, name: &[u8]) -> &'a [u8]
    ensures part { result.now ≡ part_of (field_call (length table.old) file.now k name.now) }
    ensures zeros { table.new ≡ table_after table.old }
{
    let reply = read_field(file, table, k, name);
    clear(table);
    let Ok(field) = reply else {
        return &file[0..0];
    };
    field.bytes(file)
}
