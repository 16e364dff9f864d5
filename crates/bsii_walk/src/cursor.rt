// A cursor over the blocks of a file that was read. An iterator would be no plainer: its laws would have to say what the table holds between two blocks.
ghost use Rattle.bsii_walk.specs.Cursor.{Stood, NextBlock};

use crate::records::{Block, Met, record_again};

// The next block from the record at `start` on. The prototypes in front of it are in force then.
pub fn next_block(
    s: &[u8],
    version: u32,
    start: usize,
    table: &mut [u32],
    rows: usize,
) -> Option<Block>
    requires { Stood version s.now start table.old rows }
    ensures { NextBlock version s.now start table.old rows result table.new }
{
    let mut at = start;
    loop {
        match record_again(s, version, at, table, rows)? {
            Met::Prototype(next) => {
                at = next;
            }
            Met::Block(block) => return Some(block),
        }
    }
}
