// How long the text of a file is that was read.
ghost use Rattle.std.specs.Prelude.{◌≡◌};
ghost use Rattle.bsii_format.specs.Text.{value_text};
ghost use Rattle.bsii_format.specs.BlockText.{every_block};
ghost use Rattle.bsii_measure_block.specs.Sums.{sum_is};
ghost use Rattle.bsii_walk.specs.Seek.{Readable};
ghost use Rattle.bsii_forecast.specs.Lengths.{length_is, LengthRead, LengthTold};

use bsii_format::Cause;
use bsii_measure_block::sums::Sum;
use bsii_parse::walk::Totals;
use bsii_string::answers::{Refusal, refused};
use bsii_text::records::write_bsii;

// By the sum that was made while the file was read.
#[tactic(auto, unfolding(bsii_measure_block::specs::Sums::sum_is))]
fn summed_length(sum: Sum) -> Result<usize, Refusal>
    ensures { length_is result ≡ sum_is sum.to sum.missing }
{
    match sum.missing {
        Some(at) => Err(refused(Cause::EnumValue, at)),
        None => Ok(sum.to),
    }
}

// By a walk that writes nothing: each block is named by its id's last definition, which is known once the file is read.
fn length_again(file: &[u8], version: u32, table: &mut [u32], rows: usize) -> Result<usize, Refusal>
    requires { Readable version file.now 8 table.old rows }
    ensures { LengthRead value_text every_block version file.now table.old rows result table.new }
{
    let mut nothing = [0u8; 1];
    let end = write_bsii(&mut nothing[..0], file, version, 8, table, rows)?;
    Ok(end.saturating_sub(0x8000_0000_0000_0000))
}

// The sum is under the definitions in force: with as many rows as prototypes no id is defined again, and it is the text's.
pub fn text_length(
    file: &[u8],
    totals: Totals,
    sum: Sum,
    table: &mut [u32],
) -> Result<usize, Refusal>
    requires { Readable totals.version file.now 8 table.old totals.rows }
    ensures { LengthTold value_text every_block totals file.now table.old sum result table.new }
{
    if totals.rows == totals.prototypes {
        return summed_length(sum);
    }
    length_again(file, totals.version, table, totals.rows)
}
