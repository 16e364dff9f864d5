// A block by its number, and by its number among those under a prototype name.
ghost use Rattle.std.specs.Prelude.{◌≡◌, length};
ghost use Rattle.std.specs.Option.{option_copied};
ghost use Rattle.bsii_format.specs.Calls.{block_call, named_block_call, table_after};
ghost use Rattle.bsii_file.specs.Answers.{block_is, number_is};
ghost use Rattle.bsii_file.specs.Lookups.{SoughtIn, BlockAnswered};

use bsii_format::Cause;
use bsii_parse::reading::bsii_parser;
use bsii_skip::skip_id;
use bsii_string::answers::{Refusal, refused};
use bsii_string::at::u32_at;
use bsii_table::clear;
use bsii_walk::records::Block;
use bsii_walk::seek::{Found, seek};

// The prototype id, and the id's bytes, their first one included.
#[derive(Clone, Copy)]
pub struct BlockHead {
    pub prototype_id: u32,
    pub id: usize,
    pub id_size: usize,
}

// The k-th block of a file, of all or of those under a prototype name, and the version that it was read in. The table is left as the search left it.
pub fn seek_block(
    file: &[u8],
    table: &mut [u32],
    name: Option<&[u8]>,
    k: usize,
) -> Result<(u32, Found), Refusal>
    ensures { SoughtIn (length table.old) file.now (option_copied name.entry) k result }
{
    let totals = bsii_parser(file, table)?;
    let Some(found) = seek(file, totals.version, 8, table, totals.rows, name, k) else {
        return Err(refused(Cause::Absent, 0));
    };
    Ok((totals.version, found))
}

// A block that was found. Its id was passed on the way to it, so no input is refused here.
fn block_found(s: &[u8], b: Block) -> Result<BlockHead, Refusal>
    ensures { BlockAnswered s.now b result }
{
    let end = skip_id(s, b.id)?;
    Ok(BlockHead {
        prototype_id: u32_at(s, b.at),
        id: b.id,
        id_size: end - b.id,
    })
}

// The answer, with the table as it was left by the search.
fn read_block(file: &[u8], table: &mut [u32], k: usize) -> Result<BlockHead, Refusal>
    ensures { block_is result ≡ block_call (length table.old) file.now k }
{
    let (_, found) = seek_block(file, table, None, k)?;
    block_found(file, found.block)
}

pub fn block_at(file: &[u8], table: &mut [u32], k: usize) -> Result<BlockHead, Refusal>
    ensures reply { block_is result ≡ block_call (length table.old) file.now k }
    ensures zeros { table.new ≡ table_after table.old }
{
    let reply = read_block(file, table, k);
    clear(table);
    reply
}

fn read_named(file: &[u8], table: &mut [u32], name: &[u8], n: usize) -> Result<usize, Refusal>
    ensures { number_is result ≡ named_block_call (length table.old) file.now name.now n }
{
    let (_, found) = seek_block(file, table, Some(name), n)?;
    Ok(found.number)
}

pub fn blocks_by_prototype_name(
    file: &[u8],
    table: &mut [u32],
    name: &[u8],
    n: usize,
) -> Result<usize, Refusal>
    ensures reply { number_is result ≡ named_block_call (length table.old) file.now name.now n }
    ensures zeros { table.new ≡ table_after table.old }
{
    let reply = read_named(file, table, name, n);
    clear(table);
    reply
}
