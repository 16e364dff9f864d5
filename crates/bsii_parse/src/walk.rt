// The walk over the records, up to the end record.
ghost use Rattle.std.specs.Prelude.{◌-◌, ◌≤◌, length, ◌≡◌};
ghost use Rattle.bsii_format.specs.File.{length_limit};
ghost use Rattle.bsii_tree.specs.Table.{Named};
ghost use Rattle.bsii_index_record.specs.Records.{Width};
ghost use Rattle.bsii_parse.specs.Walks.{Ready, Defining, Carrying, Stepped, Compares};

use crate::parts::{Checked, Parts};
use bsii_format::Cause;
use bsii_index_record::{IndexRecord, agree};
use bsii_prototype::answers::Head;
use bsii_prototype::heads::head_parser;
use bsii_string::answers::{Refusal, refused};
use bsii_string::numbers::size;
use bsii_tree::{define, find};

// How far the walk is: the next record's offset, the table's rows, and the blocks and the prototypes so far.
#[derive(Clone, Copy)]
pub struct Progress {
    pub at: usize,
    pub rows: usize,
    pub blocks: usize,
    pub prototypes: usize,
}

// The prototype in force for a block: its offset, and how many fields it has.
#[derive(Clone, Copy)]
pub struct Under {
    pub offset: usize,
    pub fields: usize,
}

// A prototype or a block was passed, or the records end.
// An enum and no closures: the loop does something of its own behind each case, by what the case carries, so closures are no plainer.
#[derive(Drop)]
pub enum ReadStep {
    Prototype(Progress),
    Block(Progress, Under),
    End(usize),
}

// What the whole walk has found: the version it was made in, the table's rows, the blocks and the prototypes, those of an id defined again counted
// again, and the offset behind the end record.
#[derive(Clone, Copy)]
pub struct Totals {
    pub version: u32,
    pub rows: usize,
    pub blocks: usize,
    pub prototypes: usize,
    pub next: usize,
}

// The same, and how many index records of the blocks stand at the front of an index.
#[derive(Clone, Copy)]
pub struct Compared {
    pub totals: Totals,
    pub agreed: usize,
}

// A prototype of this id, whose definitions start at `fields`. A new id without room is refused once the prototype is read whole.
fn prototype_step<P: Parts>(
    parts: &P,
    s: &[u8],
    p: Progress,
    table: &mut [u32],
    id: u32,
    fields: usize,
) -> Result<ReadStep, Refusal>
    requires { Ready s.now p table.old × Named s.now p.rows id p.at }
    ensures { Defining s.now p table.old P.known id fields result table.new }
{
    let list = parts.fields_end(s, fields)?;
    let Some(rows) = define(s, table, p.rows, id, p.at as u32) else {
        return Err(refused(Cause::TableFull, p.at));
    };
    Ok(ReadStep::Prototype(Progress {
        at: list.next,
        rows,
        prototypes: p.prototypes + 1,
        ..p
    }))
}

// A block of this id, whose own id starts at `id_at`, under the definition in force.
fn block_step<P: Parts>(
    parts: &P,
    s: &[u8],
    p: Progress,
    table: &[u32],
    id: u32,
    id_at: usize,
) -> Result<ReadStep, Refusal>
    requires { Ready s.now p table.now }
    ensures { Carrying (P.version parts.now) s.now p table.now P.known id id_at result }
{
    let Some(row) = find(s, table, p.rows, id) else {
        return Err(refused(Cause::UndefinedPrototype, p.at));
    };
    let offset = size(row.in_force);
    let block = parts.block_end(s, offset, id_at)?;
    let further = Progress {
        at: block.next,
        blocks: p.blocks + 1,
        ..p
    };
    Ok(ReadStep::Block(
        further,
        Under {
            offset,
            fields: block.count,
        },
    ))
}

// The record at p.
pub fn record_step<P: Parts>(
    parts: &P,
    s: &[u8],
    p: Progress,
    table: &mut [u32],
) -> Result<ReadStep, Refusal>
    requires { Ready s.now p table.old }
    ensures { Stepped (P.version parts.now) s.now p table.old P.known result table.new }
{
    match head_parser(s, p.at)? {
        Head::End(next) => Ok(ReadStep::End(next)),
        Head::Prototype { id, name: _, next } => prototype_step(parts, s, p, table, id, next),
        Head::Block { id, next } => block_step(parts, s, p, table, id, next),
    }
}

// The block from `at` to `next` as a record of an index, under its definition in force.
pub fn entry_of(at: usize, next: usize, under: Under) -> IndexRecord
    requires { at ≤ next }
    ensures { result ≡ record { offset = at; size = next - at; prototype = under.offset; fields = under.fields } }
{
    IndexRecord {
        offset: at,
        size: next - at,
        prototype: under.offset,
        fields: under.fields,
    }
}

// The records of a version from `start` on, with an empty table, held against an index, an empty one where none is asked about: so there is one loop, and
// what it calls for each record is compiled into it.
pub fn walk(
    checked: &Checked,
    s: &[u8],
    start: usize,
    table: &mut [u32],
    index: &[u8],
    width: usize,
) -> Result<Compared, Refusal>
    requires { (length s.now ≤ length_limit) × (start ≤ length s.now) × Width width }
    ensures { Compares checked.now.version s.now start table.old index.now width result table.new }
{
    let mut p = Progress {
        at: start,
        rows: 0,
        blocks: 0,
        prototypes: 0,
    };
    let mut agreed: usize = 0;
    loop {
        match record_step(checked, s, p, table)? {
            ReadStep::End(next) => {
                let totals = Totals {
                    version: checked.version,
                    rows: p.rows,
                    blocks: p.blocks,
                    prototypes: p.prototypes,
                    next,
                };
                return Ok(Compared { totals, agreed });
            }
            ReadStep::Prototype(further) => {
                p = further;
            }
            ReadStep::Block(further, under) => {
                let entry = entry_of(p.at, further.at, under);
                agreed = agree(index, width, agreed, p.blocks, entry);
                p = further;
            }
        }
    }
}
