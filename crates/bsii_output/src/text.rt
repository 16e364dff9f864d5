// The text call.
ghost use Rattle.std.specs.Prelude.{◌≡◌, length};
ghost use Rattle.bsii_format.specs.Text.{value_text};
ghost use Rattle.bsii_format.specs.BlockText.{every_block};
ghost use Rattle.bsii_format.specs.Calls.{text_call, table_after};
ghost use Rattle.bsii_walk.specs.Seek.{Readable};
ghost use Rattle.bsii_output.specs.Answers.{text_is, TextWritten};

use bsii_forecast::answers::Figures;
use bsii_forecast::forecast::foresee;
use bsii_format::Cause;
use bsii_string::answers::{Unwritten, refused};
use bsii_table::clear;
use bsii_text::records::write_bsii;

// The text's length, and the steps of the walk over the file.
#[derive(Drop)]
pub struct Converted {
    pub length: usize,
    pub steps: usize,
}

// The text of a file with these figures.
fn write_foreseen(
    file: &[u8],
    table: &mut [u32],
    output: &mut [u8],
    figures: Figures,
) -> Result<Converted, Unwritten>
    requires { Readable figures.version file.now 8 table.old figures.rows }
    ensures { TextWritten value_text every_block figures file.now table.old output.old result output.new }
{
    if output.len() < figures.text {
        return Err(Unwritten {
            refusal: refused(Cause::OutputShort, 0),
            needed: figures.text,
        });
    }
    write_bsii(output, file, figures.version, 8, table, figures.rows)?;
    let converted = Converted {
        length: figures.text,
        steps: figures.steps,
    };
    Ok(converted)
}

// The answer, with the table as it was left by the walks.
fn write_text(file: &[u8], table: &mut [u32], output: &mut [u8]) -> Result<Converted, Unwritten>
    ensures { text_is result output.new ≡ text_call (length table.old) file.now output.old }
{
    let figures = foresee(file, table)?;
    write_foreseen(file, table, output, figures)
}

pub fn to_siin(file: &[u8], table: &mut [u32], output: &mut [u8]) -> Result<Converted, Unwritten>
    ensures reply { text_is result output.new ≡ text_call (length table.old) file.now output.old }
    ensures zeros { table.new ≡ table_after table.old }
{
    let reply = write_text(file, table, output);
    clear(table);
    reply
}
