// The forecast.
ghost use Rattle.std.specs.Prelude.{◌≡◌, length};
ghost use Rattle.bsii_format.specs.Calls.{table_after};
ghost use Rattle.bsii_derived.specs.Forecast.{forecast_call};
ghost use Rattle.bsii_forecast.specs.Foresees.{Foresees};
ghost use Rattle.bsii_forecast.specs.Answers.{forecast_is};

use crate::answers::{Figures, Forecast};
use crate::length::text_length;
use bsii_index_record::WIDTH;
use bsii_measure::file::measure;
use bsii_measure::walk::Measuring;
use bsii_string::answers::Refusal;
use bsii_table::clear;

// The figures of a file that has a text, with the table left fit for the walk that writes it: the caller clears it.
pub fn foresee(file: &[u8], table: &mut [u32]) -> Result<Figures, Refusal>
    ensures { Foresees file.now table.old result table.new }
{
    let Measuring { totals, tally } = measure(file, table)?;
    let text = text_length(file, totals, tally.text, table)?;
    Ok(Figures {
        version: totals.version,
        rows: totals.rows,
        blocks: totals.blocks,
        text,
        largest: tally.largest,
        steps: tally.steps,
    })
}

pub fn forecast(file: &[u8], table: &mut [u32]) -> Result<Forecast, Refusal>
    ensures reply { forecast_is result ≡ forecast_call (length table.old) file.now }
    ensures zeros { table.new ≡ table_after table.old }
{
    let foreseen = foresee(file, table);
    clear(table);
    let a = foreseen?;
    Ok(Forecast {
        table_words: 3 * a.rows,
        text_length: a.text,
        index_length: a.blocks * (4 * WIDTH),
        largest_block: a.largest,
        steps: a.steps,
    })
}
