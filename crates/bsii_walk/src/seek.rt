// The k-th block, of all or of those under a prototype name.
ghost use Rattle.std.specs.Option.{option_copied};
ghost use Rattle.bsii_walk.specs.Seek.{Wants, Counts, Readable, Seeks};

use crate::cursor::next_block;
use crate::names::name_is;
use crate::records::Block;

// A block and its number.
#[derive(Clone, Copy)]
pub struct Found {
    pub number: usize,
    pub block: Block,
}

// Every block is wanted, or those under the name.
fn wants(s: &[u8], last: usize, name: Option<&[u8]>) -> bool
    ensures { Wants s.now last (option_copied name.entry) result }
{
    match name {
        None => true,
        Some(name) => name_is(s, last, name),
    }
}

// How many of the wanted blocks are still passed over behind one whose last definition is at `last`, where `left` were: none if it is the one.
fn count_down(s: &[u8], last: usize, name: Option<&[u8]>, left: usize) -> Option<usize>
    ensures { Counts s.now last (option_copied name.entry) left result }
{
    if !wants(s, last, name) {
        return Some(left);
    }
    left.checked_sub(1)
}

// The wanted block number k, counted from the record at `start`.
pub fn seek(
    s: &[u8],
    version: u32,
    start: usize,
    table: &mut [u32],
    rows: usize,
    name: Option<&[u8]>,
    k: usize,
) -> Option<Found>
    requires { Readable version s.now start table.old rows }
    ensures { Seeks version s.now start table.old rows (option_copied name.entry) k result }
{
    let mut at = start;
    let mut number = 0;
    let mut left = k;
    loop {
        let block = next_block(s, version, at, table, rows)?;
        let Some(fewer) = count_down(s, block.last, name, left) else {
            return Some(Found { number, block });
        };
        at = block.next;
        number += 1;
        left = fewer;
    }
}
