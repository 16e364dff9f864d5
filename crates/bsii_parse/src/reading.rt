// The reading call: the whole file, its header and its records.
ghost use Rattle.std.specs.Prelude.{◌≡◌, length};
ghost use Rattle.bsii_format.specs.Calls.{reading_call, table_after};
ghost use Rattle.bsii_index_record.specs.Records.{Width};
ghost use Rattle.bsii_parse.specs.Walks.{ComparesFile, ReadFile, ReadTree};
ghost use Rattle.bsii_parse.specs.Answers.{reading_is};

use crate::parts::Checked;
use crate::walk::{Compared, Totals, walk};
use bsii_base38::CharPairs;
use bsii_format::Cause;
use bsii_index_record::WIDTH;
use bsii_order::order;
use bsii_prototype::heads::header_parser;
use bsii_string::answers::{LENGTH_LIMIT, Refusal, refused};
use bsii_table::clear;

// What the reading call answers: how many distinct prototype ids and how many blocks there are, and the offset after the end record.
#[derive(Clone, Copy)]
pub struct Reading {
    pub prototypes: usize,
    pub blocks: usize,
    pub next: usize,
}

// The file, held against an index of numbers of `width` bytes, with the tree of its ids left in the table: the caller clears it.
pub fn compare(
    file: &[u8],
    table: &mut [u32],
    index: &[u8],
    width: usize,
) -> Result<Compared, Refusal>
    requires { Width width }
    ensures { ComparesFile file.now table.old index.now width result table.new }
{
    if LENGTH_LIMIT < file.len() {
        return Err(refused(Cause::InputLong, 0));
    }
    let version = header_parser(file)?;
    let chars = CharPairs::new();
    let checked = Checked {
        chars: &chars,
        version,
    };
    walk(&checked, file, 8, table, index, width)
}

// The file, with the tree of its ids left in the table: the caller clears it.
pub fn tree_parser(file: &[u8], table: &mut [u32]) -> Result<Totals, Refusal>
    ensures { ReadTree file.now table.old result table.new }
{
    let compared = compare(file, table, &file[0..0], WIDTH)?;
    Ok(compared.totals)
}

// The file, with the last definition of each id left in the table for a look-up: the caller clears it.
pub fn bsii_parser(file: &[u8], table: &mut [u32]) -> Result<Totals, Refusal>
    ensures { ReadFile file.now table.old result table.new }
{
    let totals = tree_parser(file, table)?;
    order(file, table, totals.rows);
    Ok(totals)
}

// No look-up follows, so the table is left in no order.
pub fn parse(file: &[u8], table: &mut [u32]) -> Result<Reading, Refusal>
    ensures reply { reading_is result ≡ reading_call (length table.old) file.now }
    ensures zeros { table.new ≡ table_after table.old }
{
    let read = tree_parser(file, table);
    clear(table);
    let totals = read?;
    Ok(Reading {
        prototypes: totals.rows,
        blocks: totals.blocks,
        next: totals.next,
    })
}
