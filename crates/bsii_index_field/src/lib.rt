// A field by an index. Only the record, the version, the prototype and the block are read, so a look-up costs the same in a file of any length; nothing is
// known of the index, so everything that is read is checked.
#![tactic(auto)]

mod blocks;
mod prototypes;

ghost use Rattle.std.specs.Prelude.{◌≡◌};
ghost use Rattle.bsii_format.specs.Calls.{part_of};
ghost use Rattle.bsii_derived.specs.Index.{index_width};
ghost use Rattle.bsii_derived.specs.IndexCalls.{index_field_call};
ghost use Rattle.bsii_file_field.specs.Answers.{field_is};
ghost use Rattle.bsii_index_record.specs.Records.{Width};
ghost use Rattle.bsii_index_field.specs.Looks.{Looked, LookedUp};

use crate::blocks::{block_field, block_head};
use crate::prototypes::prototype_parser;
use bsii_base38::CharPairs;
use bsii_file_field::answers::Field;
use bsii_format::Cause;
use bsii_index_record::{WIDTH, record_at};
use bsii_string::answers::{LENGTH_LIMIT, Refusal, refused};
use bsii_string::numbers::le_u32;

// The field in the block at `at`, under the prototype at `prototype`.
fn look(s: &[u8], version: u32, at: usize, prototype: usize, name: &[u8]) -> Result<Field, Refusal>
    ensures { Looked version s.now at prototype name.now result }
{
    let under = prototype_parser(s, prototype, at)?;
    let chars = CharPairs::new();
    let start = block_head(&chars, s, at, under.id)?;
    block_field(&chars, s, version, under.fields, start, name)
}

// The answer by an index of numbers of `width` bytes. The length and the number of fields of a record are not looked at.
fn look_up(file: &[u8], index: &[u8], width: usize, k: usize, name: &[u8]) -> Result<Field, Refusal>
    requires { Width width }
    ensures { LookedUp width file.now index.now k name.now result }
{
    if LENGTH_LIMIT < file.len() {
        return Err(refused(Cause::InputLong, 0));
    }
    let Some(record) = record_at(index, width, k) else {
        return Err(refused(Cause::Absent, 0));
    };
    let (version, _) = le_u32(file, 4)?;
    look(file, version, record.offset, record.prototype, name)
}

pub fn field_by_index(file: &[u8], index: &[u8], k: usize, name: &[u8]) -> Result<Field, Refusal>
    ensures reply { field_is file.now result ≡ index_field_call index_width file.now index.now k name.now }
{
    look_up(file, index, WIDTH, k, name)
}

// The value's bytes, empty exactly where `field_by_index` refuses.
pub fn part_by_index<'a>(file: &'a [u8], index: &[u8], k: usize, name: &[u8]) -> &'a [u8]
    ensures part { result.now ≡ part_of (index_field_call index_width file.now index.now k name.now) }
{
    let Ok(field) = look_up(file, index, WIDTH, k, name) else {
        return &file[0..0];
    };
    field.bytes(file)
}
