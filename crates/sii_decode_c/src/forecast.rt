// The forecast.
ghost use Rattle.std.specs.Prelude.{◌≡◌, length};
ghost use Rattle.bsii_format.specs.Calls.{table_after};
ghost use Rattle.bsii_derived.specs.Forecast.{forecast_call};
ghost use Rattle.bsii_forecast.specs.Answers.{forecast_is};
ghost use Rattle.sii_decode_c.specs.Exports.{forecast_out};

use bsii_forecast::answers::Forecast;
use bsii_forecast::forecast::forecast;
use bsii_string::answers::Refusal;

#[repr(C)]
#[derive(Drop)]
pub struct SiiForecast {
    pub number: u32,
    pub offset: u64,
    pub lacking: u64,
    pub table_words: u64,
    pub text_len: u64,
    pub index_len: u64,
    pub largest_block: u64,
    pub steps: u64,
}

impl From<Result<Forecast, Refusal>> for SiiForecast {
    ghost from_gives = { λ reply out. out ≡ forecast_out (forecast_is reply) };

    fn from(reply: Result<Forecast, Refusal>) -> SiiForecast {
        match reply {
            Ok(a) => SiiForecast {
                number: 0,
                offset: 0,
                lacking: 0,
                table_words: a.table_words as u64,
                text_len: a.text_length as u64,
                index_len: a.index_length as u64,
                largest_block: a.largest_block as u64,
                steps: a.steps as u64,
            },
            Err(f) => SiiForecast {
                number: f.cause.into(),
                offset: f.offset as u64,
                lacking: u64::from(f.lacking),
                table_words: 0,
                text_len: 0,
                index_len: 0,
                largest_block: 0,
                steps: 0,
            },
        }
    }
}

#[unsafe(no_mangle)]
pub extern "C" fn sii_forecast(file: &[u8], table: &mut [u32]) -> SiiForecast
    ensures reply { result ≡ forecast_out (forecast_call (length table.old) file.now) }
    ensures zeros { table.new ≡ table_after table.old }
{
    forecast(file, table).into()
}
