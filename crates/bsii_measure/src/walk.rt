// The walk over the records, up to the end record. What it calls for each record has no other caller, so that it is compiled into the loop. The steps are those of
// bsii_parse's walk with a tally: one walk for both would need a trait with the tally's type and its laws, and be no plainer.
ghost use Rattle.std.specs.Prelude.{◌≤◌, length};
ghost use Rattle.bsii_format.specs.File.{length_limit};
ghost use Rattle.bsii_tree.specs.Table.{Named};
ghost use Rattle.bsii_measure.specs.Walks.{Standing, SumDefining, SumCarrying, SumStepped, SumWalks};

use bsii_base38::CharPairs;
use bsii_format::Cause;
use bsii_measure_block::blocks::block_summed;
use bsii_measure_block::sums::Sum;
use bsii_parse::walk::{Progress, Totals};
use bsii_prototype::answers::Head;
use bsii_prototype::fields::fields_parser;
use bsii_prototype::heads::head_parser;
use bsii_string::answers::{Refusal, refused};
use bsii_string::numbers::size;
use bsii_tree::{define, find};

// What the walk has added up: the text, the steps, one for each record and one for each value, and the bytes of the largest block.
#[derive(Clone, Copy)]
pub struct Tally {
    pub text: Sum,
    pub steps: usize,
    pub largest: usize,
}

// A record was passed, or the records end.
// An enum and no closures, as ReadStep.
#[derive(Clone, Copy)]
pub enum SumStep {
    Go(Progress, Tally),
    End(usize),
}

// What the whole walk has found and added up.
#[derive(Clone, Copy)]
pub struct Measuring {
    pub totals: Totals,
    pub tally: Tally,
}

// A prototype of this id, whose definitions start at `fields`. It has no text.
fn prototype_step(
    s: &[u8],
    p: Progress,
    tally: Tally,
    table: &mut [u32],
    id: u32,
    fields: usize,
) -> Result<SumStep, Refusal>
    requires { Standing s.now p tally table.old × Named s.now p.rows id p.at }
    ensures { SumDefining s.now p tally table.old id fields result table.new }
{
    let list = fields_parser(s, fields)?;
    let Some(rows) = define(s, table, p.rows, id, p.at as u32) else {
        return Err(refused(Cause::TableFull, p.at));
    };
    Ok(SumStep::Go(
        Progress {
            at: list.next,
            rows,
            prototypes: p.prototypes + 1,
            ..p
        },
        Tally {
            steps: tally.steps + 1,
            ..tally
        },
    ))
}

// A block of this id, whose own id starts at `id_at`, under the definition in force.
fn block_step(
    chars: &CharPairs,
    s: &[u8],
    version: u32,
    p: Progress,
    tally: Tally,
    table: &[u32],
    id: u32,
    id_at: usize,
) -> Result<SumStep, Refusal>
    requires { Standing s.now p tally table.now × (p.at ≤ id_at) × (id_at ≤ length s.now) }
    ensures { SumCarrying version s.now p tally table.now id id_at result }
{
    let Some(row) = find(s, table, p.rows, id) else {
        return Err(refused(Cause::UndefinedPrototype, p.at));
    };
    let block = block_summed(chars, s, version, size(row.in_force), id_at, tally.text)?;
    Ok(SumStep::Go(
        Progress {
            at: block.at,
            blocks: p.blocks + 1,
            ..p
        },
        Tally {
            text: block.sum,
            steps: tally.steps + 1 + block.values,
            largest: tally.largest.max(block.at - p.at),
        },
    ))
}

// The record at p.
fn record_step(
    chars: &CharPairs,
    s: &[u8],
    version: u32,
    p: Progress,
    tally: Tally,
    table: &mut [u32],
) -> Result<SumStep, Refusal>
    requires { Standing s.now p tally table.old }
    ensures { SumStepped version s.now p tally table.old result table.new }
{
    match head_parser(s, p.at)? {
        Head::End(next) => Ok(SumStep::End(next)),
        Head::Prototype { id, name: _, next } => prototype_step(s, p, tally, table, id, next),
        Head::Block { id, next } => block_step(chars, s, version, p, tally, table, id, next),
    }
}

// The records of a version from `start` on, with an empty table.
pub fn walk(
    chars: &CharPairs,
    s: &[u8],
    version: u32,
    start: usize,
    table: &mut [u32],
) -> Result<Measuring, Refusal>
    requires { (length s.now ≤ length_limit) × (start ≤ length s.now) }
    ensures { SumWalks version s.now start table.old result table.new }
{
    let mut p = Progress {
        at: start,
        rows: 0,
        blocks: 0,
        prototypes: 0,
    };
    let mut tally = Tally {
        text: Sum {
            to: 0,
            missing: None,
        },
        steps: 0,
        largest: 0,
    };
    loop {
        match record_step(chars, s, version, p, tally, table)? {
            SumStep::End(next) => {
                let totals = Totals {
                    version,
                    rows: p.rows,
                    blocks: p.blocks,
                    prototypes: p.prototypes,
                    next,
                };
                let tally = Tally {
                    steps: tally.steps + 1,
                    ..tally
                };
                return Ok(Measuring { totals, tally });
            }
            SumStep::Go(further, more) => {
                p = further;
                tally = more;
            }
        }
    }
}
