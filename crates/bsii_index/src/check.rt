// An index against its file: the reading walk holds it against the blocks. 14 stands behind the file's own faults, since the walk goes on behind the first
// difference.
ghost use Rattle.std.specs.Prelude.{◌≡◌, ◌≤◌, length};
ghost use Rattle.bsii_format.specs.File.{length_limit};
ghost use Rattle.bsii_format.specs.Calls.{table_after};
ghost use Rattle.bsii_derived.specs.Index.{index_width};
ghost use Rattle.bsii_derived.specs.IndexCalls.{check_index_call};
ghost use Rattle.bsii_index_record.specs.Records.{Width};
ghost use Rattle.bsii_index.specs.Answers.{checked_is};
ghost use Rattle.bsii_index.specs.Indexes.{Fitting};

use bsii_format::Cause;
use bsii_index_record::WIDTH;
use bsii_parse::reading::compare;
use bsii_string::answers::{Refusal, refused};
use bsii_table::clear;

// All records agree and nothing stands behind them, or the first that does not is the misfit.
fn fitting(index: &[u8], width: usize, agreed: usize, blocks: usize) -> Result<(), Refusal>
    requires { Width width × (agreed ≤ length_limit) }
    ensures { Fitting index.now width agreed blocks result }
{
    let end = agreed * (4 * width);
    if agreed == blocks && index.len() == end {
        return Ok(());
    }
    Err(refused(Cause::Misfit, end))
}

pub fn check_index(file: &[u8], table: &mut [u32], index: &[u8]) -> Result<(), Refusal>
    ensures reply { checked_is result ≡ check_index_call index_width (length table.old) file.now index.now }
    ensures zeros { table.new ≡ table_after table.old }
{
    let read = compare(file, table, index, WIDTH);
    clear(table);
    let compared = read?;
    fitting(index, WIDTH, compared.agreed, compared.totals.blocks)
}
