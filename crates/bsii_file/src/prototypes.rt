// A prototype by its id.
ghost use Rattle.std.specs.Prelude.{◌≡◌, length};
ghost use Rattle.bsii_format.specs.Calls.{prototype_call, table_after};
ghost use Rattle.bsii_table.specs.Rows.{Rows};
ghost use Rattle.bsii_file.specs.Answers.{prototype_is};
ghost use Rattle.bsii_file.specs.Lookups.{PrototypeAt, LastPrototype};

use bsii_format::Cause;
use bsii_parse::reading::bsii_parser;
use bsii_prototype::answers::NAME;
use bsii_prototype::fields::fields_with;
use bsii_prototype::skip::fields_at;
use bsii_prototype::strings::Unchecked;
use bsii_string::answers::{Refusal, refused};
use bsii_string::numbers::size;
use bsii_table::{clear, find};

// The name's bytes, without their u32 length, and the number of fields.
#[derive(Clone, Copy)]
pub struct PrototypeHead {
    pub name: usize,
    pub name_size: usize,
    pub fields: usize,
}

// The prototype record at `offset`: its name stands behind a u32 zero, the byte 1, the u32 id and the name's u32 length.
fn prototype_at(s: &[u8], offset: usize) -> Result<PrototypeHead, Refusal>
    ensures { PrototypeAt s.now offset result }
{
    let first = fields_at(s, offset)?;
    let name = offset + NAME;
    let list = fields_with::<Unchecked>(s, first)?;
    Ok(PrototypeHead {
        name,
        name_size: first - name,
        fields: list.count,
    })
}

// The last definition of the id in the file that the table was filled from.
fn last_prototype(
    file: &[u8],
    table: &[u32],
    rows: usize,
    id: u32,
) -> Result<PrototypeHead, Refusal>
    requires { Rows table.now rows }
    ensures { LastPrototype file.now table.now rows id result }
{
    let Some(row) = find(table, rows, id) else {
        return Err(refused(Cause::Absent, 0));
    };
    prototype_at(file, size(row.last))
}

// The answer, with the table as it was left by the reading.
fn read_prototype(file: &[u8], table: &mut [u32], id: u32) -> Result<PrototypeHead, Refusal>
    ensures { prototype_is result ≡ prototype_call (length table.old) file.now id }
{
    let totals = bsii_parser(file, table)?;
    last_prototype(file, table, totals.rows, id)
}

pub fn get_prototype(file: &[u8], table: &mut [u32], id: u32) -> Result<PrototypeHead, Refusal>
    ensures reply { prototype_is result ≡ prototype_call (length table.old) file.now id }
    ensures zeros { table.new ≡ table_after table.old }
{
    let reply = read_prototype(file, table, id);
    clear(table);
    reply
}
