// The block at an offset, under a prototype: what stands in front of its values, the values, and the field of a name.
ghost use Rattle.std.specs.Prelude.{◌≡◌};
ghost use Rattle.bsii_index_field.specs.Looks.{HeadRead, kept_of, ValuesRead, FieldRead};

use bsii_base38::CharPairs;
use bsii_field::{Value, field_index};
use bsii_file_field::answers::Field;
use bsii_format::Cause;
use bsii_prototype::answers::Entry;
use bsii_prototype::fields::entry_with;
use bsii_prototype::strings::Unchecked;
use bsii_string::answers::{Refusal, refused};
use bsii_string::numbers::le_u32;
use bsii_value::values::value_parser;
use bsii_word::words::id_parser;

// A block's prototype id, which must be `id`, and its own id: where its values start.
pub fn block_head(chars: &CharPairs, s: &[u8], at: usize, id: u32) -> Result<usize, Refusal>
    ensures { HeadRead s.now at id result }
{
    let (n, next) = le_u32(s, at)?;
    if n == 0 {
        return Err(refused(Cause::UndefinedPrototype, at));
    }
    if n != id {
        return Err(refused(Cause::UndefinedPrototype, at));
    }
    id_parser(chars, s, next)
}

// What is kept behind a value that `passed` others stand in front of. Not written inside the loop, where its branches would join again.
fn keep(kept: Option<Value>, value: Value, index: Option<usize>, passed: usize) -> Option<Value>
    ensures { result ≡ kept_of index passed kept value }
{
    match index {
        Some(position) if position == passed => Some(value),
        _ => kept,
    }
}

// The values of a version from `start` on, one for each definition from `fields` on: the one at the index, if there is one, or their first fault. Each is
// checked, also behind the one at the index: a fault anywhere in the block comes before the answer.
// A walk of its own beside bsii_block's: shared with the reading walk, blocks of few bytes took up to 2.5 times as long to read.
fn block_values(
    chars: &CharPairs,
    s: &[u8],
    version: u32,
    fields: usize,
    start: usize,
    index: Option<usize>,
) -> Result<Option<Value>, Refusal>
    ensures { ValuesRead version s.now fields start index result }
{
    let mut field = fields;
    let mut at = start;
    let mut passed: usize = 0;
    let mut kept = None;
    loop {
        match entry_with::<Unchecked>(s, field)? {
            Entry::Last(_) => return Ok(kept),
            Entry::Field {
                type_id,
                name: _,
                name_end: _,
                next,
            } => {
                let end = value_parser(chars, s, at, version, type_id)?;
                let this = Value {
                    type_id,
                    at,
                    next: end,
                };
                kept = keep(kept, this, index, passed);
                at = end;
                field = next;
                passed += 1;
            }
        }
    }
}

// The field of that name, where the values start at `start` and the definitions at `fields`: its name is looked for in those that its value stands under.
pub fn block_field(
    chars: &CharPairs,
    s: &[u8],
    version: u32,
    fields: usize,
    start: usize,
    name: &[u8],
) -> Result<Field, Refusal>
    ensures { FieldRead version s.now fields start name.now result }
{
    let index = field_index(s, fields, name);
    let values = block_values(chars, s, version, fields, start, index)?;
    let Some(value) = values else {
        return Err(refused(Cause::Absent, 0));
    };
    Ok(Field {
        type_id: value.type_id,
        part: value.at,
        part_size: value.next - value.at,
    })
}
