// The whole file.
ghost use Rattle.bsii_measure.specs.Files.{MeasuresTree, MeasuresFile};

use crate::walk::{Measuring, Tally, walk};
use bsii_base38::CharPairs;
use bsii_format::Cause;
use bsii_measure_block::sums::Sum;
use bsii_order::order;
use bsii_prototype::heads::header_parser;
use bsii_string::answers::{LENGTH_LIMIT, Refusal, refused};

// How many bytes the text has around its blocks: `SiiNunit`, `{` and `}`, each on a line.
const FRAME: usize = 13;

// The file and the text of its blocks, with the tree of its ids left in the table.
fn measure_tree(file: &[u8], table: &mut [u32]) -> Result<Measuring, Refusal>
    ensures { MeasuresTree file.now table.old result table.new }
{
    if LENGTH_LIMIT < file.len() {
        return Err(refused(Cause::InputLong, 0));
    }
    let version = header_parser(file)?;
    let chars = CharPairs::new();
    walk(&chars, file, version, 8, table)
}

// The file and its text, with the last definition of each id left in the table for a look-up: the caller clears it. The text's sum is
// under the definitions in force, so it is the text's only with as many rows as prototypes.
pub fn measure(file: &[u8], table: &mut [u32]) -> Result<Measuring, Refusal>
    ensures { MeasuresFile file.now table.old result table.new }
{
    let Measuring { totals, tally } = measure_tree(file, table)?;
    order(file, table, totals.rows);
    let framed = Sum {
        to: tally.text.to + FRAME,
        ..tally.text
    };
    Ok(Measuring {
        totals,
        tally: Tally {
            text: framed,
            ..tally
        },
    })
}
