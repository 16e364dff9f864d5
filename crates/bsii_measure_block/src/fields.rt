// The values of a block under its definitions.
ghost use Rattle.std.specs.Prelude.{◌≡◌};
ghost use Rattle.bsii_measure_block.specs.Sums.{Room};
ghost use Rattle.bsii_definition.specs.Pairs.{InFile};
ghost use Rattle.bsii_measure_block.specs.Fields.{EnumSummed, FieldSummed, ValuesSummed};

use crate::sums::{Sum, Summed, SummedBlock, with_missing};
use bsii_base38::CharPairs;
use bsii_definition::enums::enum_string;
use bsii_definition::pairs::Definition;
use bsii_measure_value::values::value_measured;
use bsii_prototype::accepted::accepted_at;
use bsii_string::answers::Refusal;
use bsii_string::numbers::le_u32;
use bsii_text_length::strings::string_length;

// An enum value. One that is not in its list has no text, and the walk goes on: a later fault of the file comes first.
fn enum_summed(s: &[u8], at: usize, d: Definition, sum: Sum) -> Result<Summed, Refusal>
    requires { Room s.now at sum × InFile s.now d × (d.type_id ≡ 0x37) }
    ensures { EnumSummed s.now at d sum result }
{
    let (n, next) = le_u32(s, at)?;
    let Some(text) = enum_string(s, d.name_end, d.type_id, n) else {
        return Ok(Summed {
            at: next,
            sum: with_missing(sum, at),
        });
    };
    let line = d.name_end - d.name + 5 + string_length(&s[text.start..text.next]);
    Ok(Summed {
        at: next,
        sum: Sum {
            to: sum.to + line,
            ..sum
        },
    })
}

// The value at a position, under its definition.
fn field_summed(
    chars: &CharPairs,
    s: &[u8],
    version: u32,
    at: usize,
    d: Definition,
    sum: Sum,
) -> Result<Summed, Refusal>
    requires { Room s.now at sum × InFile s.now d }
    ensures { FieldSummed version s.now at d sum result }
{
    if d.type_id == 0x37 {
        return enum_summed(s, at, d, sum);
    }
    let value = value_measured(chars, s, at, version, d.type_id, d.name_end - d.name)?;
    Ok(Summed {
        at: value.at,
        sum: Sum {
            to: sum.to + value.long,
            ..sum
        },
    })
}

// The values from `start` on, one for each definition from `fields` on.
// A walk of its own beside bsii_block's: shared with the reading walk, blocks of few bytes took up to 2.5 times as long to read.
pub fn values_summed(
    chars: &CharPairs,
    s: &[u8],
    version: u32,
    fields: usize,
    start: usize,
    before: Sum,
) -> Result<SummedBlock, Refusal>
    requires { Room s.now start before }
    ensures { ValuesSummed version s.now fields start before result }
{
    let mut field = fields;
    let mut at = start;
    let mut sum = before;
    let mut values: usize = 0;
    while let Some(found) = accepted_at(s, field) {
        let d = Definition {
            type_id: found.type_id,
            name: field + 8,
            name_end: found.name_end,
        };
        let value = field_summed(chars, s, version, at, d, sum)?;
        at = value.at;
        sum = value.sum;
        field = found.next;
        values += 1;
    }
    Ok(SummedBlock { at, sum, values })
}
