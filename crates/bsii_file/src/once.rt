// Whether an index may stand in for the walk.
ghost use Rattle.std.specs.Prelude.{◌≡◌, length};
ghost use Rattle.bsii_format.specs.Calls.{table_after};
ghost use Rattle.bsii_derived.specs.IndexCalls.{defines_once_call};
ghost use Rattle.bsii_file.specs.Answers.{number_is};

use bsii_parse::reading::tree_parser;
use bsii_string::answers::Refusal;
use bsii_table::clear;

// 1 if no prototype id is defined twice, else 0: there are as many rows as prototypes then.
pub fn defines_once(file: &[u8], table: &mut [u32]) -> Result<usize, Refusal>
    ensures reply { number_is result ≡ defines_once_call (length table.old) file.now }
    ensures zeros { table.new ≡ table_after table.old }
{
    let read = tree_parser(file, table);
    clear(table);
    let totals = read?;
    Ok(usize::from(totals.prototypes == totals.rows))
}
