// Records of a file that was read.
ghost use Rattle.std.specs.Prelude.{◌≡◌, ◌≤◌, length};
ghost use Rattle.bsii_format.specs.File.{length_limit};
ghost use Rattle.bsii_table.specs.Rows.{Rows};
ghost use Rattle.bsii_walk.specs.Again.{MarkAt, KindAt, PrototypeAgain, BlockAgain, RecordAgain};

use bsii_block::skip_block;
use bsii_prototype::fields::fields_with;
use bsii_prototype::skip::fields_at;
use bsii_prototype::strings::Unchecked;
use bsii_string::numbers::{le_u8, le_u32, size};
use bsii_table::{enter, find};

// How a record begins that is not the end record.
#[derive(Drop)]
pub enum RecordKind {
    Defines(u32),
    Carries { id: u32, next: usize },
}

// The offsets of a block, of its id, of its definition in force, of its last one and of the next record.
#[derive(Clone, Copy)]
pub struct Block {
    pub at: usize,
    pub id: usize,
    pub under: usize,
    pub last: usize,
    pub next: usize,
}

// What a record was: a prototype, with the next record's offset, or a block.
#[derive(Drop)]
pub enum Met {
    Prototype(usize),
    Block(Block),
}

fn mark_at(s: &[u8], at: usize) -> Option<RecordKind>
    ensures { MarkAt s.now at result }
{
    let (mark, next) = le_u8(s, at).ok()?;
    if mark == 0 {
        return None;
    }
    let (id, _) = le_u32(s, next).ok()?;
    Some(RecordKind::Defines(id))
}

pub fn kind_at(s: &[u8], at: usize) -> Option<RecordKind>
    ensures { KindAt s.now at result }
{
    let (id, next) = le_u32(s, at).ok()?;
    if id != 0 {
        return Some(RecordKind::Carries { id, next });
    }
    mark_at(s, next)
}

// A prototype is in force from here on: the next record's offset.
pub fn prototype_again(
    s: &[u8],
    at: usize,
    table: &mut [u32],
    rows: usize,
    id: u32,
) -> Option<usize>
    requires { (length s.now ≤ length_limit) × (at ≤ length s.now) × Rows table.old rows }
    ensures { PrototypeAgain s.now at table.old rows id result table.new }
{
    let first = fields_at(s, at).ok()?;
    let list = fields_with::<Unchecked>(s, first).ok()?;
    enter(table, rows, id, at as u32);
    Some(list.next)
}

// The block at an offset, of that prototype id, whose own id starts at `id`.
fn block_again(
    s: &[u8],
    version: u32,
    at: usize,
    id: usize,
    table: &[u32],
    rows: usize,
    prototype: u32,
) -> Option<Block>
    requires { Rows table.now rows }
    ensures { BlockAgain version s.now at id table.now rows prototype result }
{
    let row = find(table, rows, prototype)?;
    let under = size(row.in_force);
    let last = size(row.last);
    let end = skip_block(s, version, under, id).ok()?;
    Some(Block {
        at,
        id,
        under,
        last,
        next: end.next,
    })
}

pub fn record_again(
    s: &[u8],
    version: u32,
    at: usize,
    table: &mut [u32],
    rows: usize,
) -> Option<Met>
    requires { (length s.now ≤ length_limit) × (at ≤ length s.now) × Rows table.old rows }
    ensures { RecordAgain version s.now at table.old rows result table.new }
{
    match kind_at(s, at)? {
        RecordKind::Defines(id) => {
            let next = prototype_again(s, at, table, rows, id)?;
            Some(Met::Prototype(next))
        }
        RecordKind::Carries { id, next } => {
            let block = block_again(s, version, at, next, table, rows, id)?;
            Some(Met::Block(block))
        }
    }
}
