// An index is written. A refusal leaves the space as it was, so the blocks are counted first, by the reading walk; the second walk checks nothing again.
ghost use Rattle.std.specs.Prelude.{◌≡◌, length};
ghost use Rattle.bsii_format.specs.Calls.{table_after};
ghost use Rattle.bsii_derived.specs.Index.{index_width};
ghost use Rattle.bsii_derived.specs.IndexCalls.{write_index_call};
ghost use Rattle.bsii_index_record.specs.Records.{Width};
ghost use Rattle.bsii_index.specs.Answers.{length_is};
ghost use Rattle.bsii_index.specs.Indexes.{Readable, Writable, RecordsWritten, ReadWritten};

use bsii_format::Cause;
use bsii_index_record::{WIDTH, put_record};
use bsii_parse::parts::Known;
use bsii_parse::reading::tree_parser;
use bsii_parse::walk::{Progress, ReadStep, entry_of, record_step};
use bsii_string::answers::{Unwritten, refused};
use bsii_table::clear;

// The records of an accepted file from `start` on, with an empty table and room for all.
fn write_records(
    s: &[u8],
    version: u32,
    start: usize,
    table: &mut [u32],
    space: &mut [u8],
    width: usize,
)
    requires { Writable version s.now start table.old space.old width }
    ensures { RecordsWritten version s.now start table.old space.old width table.new space.new }
{
    let known = Known { version };
    let mut p = Progress {
        at: start,
        rows: 0,
        blocks: 0,
        prototypes: 0,
    };
    let mut to: usize = 0;
    loop {
        let Ok(step) = record_step(&known, s, p, table) else {
            return;
        };
        match step {
            ReadStep::End(_) => return,
            ReadStep::Prototype(further) => {
                p = further;
            }
            ReadStep::Block(further, under) => {
                let entry = entry_of(p.at, further.at, under);
                put_record(space, to, width, entry);
                to += 4 * width;
                p = further;
            }
        }
    }
}

// The index of a file that was read and has so many blocks: its length in bytes.
fn write_read(
    file: &[u8],
    version: u32,
    table: &mut [u32],
    space: &mut [u8],
    width: usize,
    blocks: usize,
) -> Result<usize, Unwritten>
    requires { Readable version file.now table.old width blocks }
    ensures { ReadWritten version file.now table.old space.old width result table.new space.new }
{
    let length = blocks * (4 * width);
    if space.len() < length {
        return Err(Unwritten {
            refusal: refused(Cause::OutputShort, 0),
            needed: length,
        });
    }
    write_records(file, version, 8, table, space, width);
    Ok(length)
}

// The answer, with the table as it was left by the walks.
fn write(file: &[u8], table: &mut [u32], space: &mut [u8], width: usize) -> Result<usize, Unwritten>
    requires { Width width }
    ensures { length_is result space.new ≡ write_index_call width (length table.old) file.now space.old }
{
    let totals = tree_parser(file, table)?;
    write_read(file, totals.version, table, space, width, totals.blocks)
}

pub fn write_index(file: &[u8], table: &mut [u32], space: &mut [u8]) -> Result<usize, Unwritten>
    ensures reply { length_is result space.new ≡ write_index_call index_width (length table.old) file.now space.old }
    ensures zeros { table.new ≡ table_after table.old }
{
    let reply = write(file, table, space, WIDTH);
    clear(table);
    reply
}
