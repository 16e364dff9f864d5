// Encoded words and ids.
ghost use Rattle.std.specs.Prelude.{◌≡◌, ◌<◌, length, drop};
ghost use Rattle.bsii_format.specs.Reader.{repeat};
ghost use Rattle.bsii_format.specs.Numbers.{number};
ghost use Rattle.bsii_format.specs.Strings.{characters, encoded_str_parser, nameless, named, id_parser};
ghost use Rattle.bsii_format.specs.Text.{encoded_string_text, id_text};
ghost use Rattle.bsii_measure_string.specs.Measured.{measured};

use crate::answers::Measured;
use bsii_base38::CharPairs;
use bsii_format::Cause;
use bsii_string::answers::{Refusal, refused};
use bsii_string::numbers::{le_u8, le_u64};
use bsii_word::words::spelled_length;
use bsii_write_id::ids::nameless_length;

// A word and its characters: one walk over its digits says whether it is accepted and how long it is.
fn word_measured(chars: &CharPairs, s: &[u8], at: usize) -> Result<Measured, Refusal>
    ensures { result ≡ measured (λ w. length (characters w)) (encoded_str_parser at (drop at s.now)) }
{
    let (n, next) = le_u64(s, at)?;
    match spelled_length(chars, n % 0x8000_0000_0000_0000) {
        Some(long) => Ok(Measured { at: next, long }),
        None => Err(refused(Cause::ZeroDigit, at)),
    }
}

// A word as a value: one of no characters is written as two quotation marks.
pub fn encoded_measured(chars: &CharPairs, s: &[u8], at: usize) -> Result<Measured, Refusal>
    ensures { result ≡ measured (λ w. length (encoded_string_text w)) (encoded_str_parser at (drop at s.now)) }
{
    let word = word_measured(chars, s, at)?;
    if word.long == 0 {
        return Ok(Measured {
            at: word.at,
            long: 2,
        });
    }
    Ok(word)
}

// The words of an id, one at least. Each is counted with a dot, and the first one has none.
fn words_measured(
    chars: &CharPairs,
    s: &[u8],
    start: usize,
    count: u32,
) -> Result<Measured, Refusal>
    requires { 0 < count }
    ensures { result ≡ measured (λ l. length (id_text (named l))) (repeat count encoded_str_parser start (drop start s.now)) }
{
    let mut at = start;
    let mut long: usize = 0;
    for _ in 0..count {
        let word = word_measured(chars, s, at)?;
        long += 1 + word.long;
        at = word.at;
    }
    Ok(Measured { at, long: long - 1 })
}

fn nameless_measured(s: &[u8], at: usize) -> Result<Measured, Refusal>
    ensures { result ≡ measured (λ n. length (id_text (nameless n))) (number 8 at (drop at s.now)) }
{
    let (n, next) = le_u64(s, at)?;
    Ok(Measured {
        at: next,
        long: nameless_length(n),
    })
}

pub fn id_measured(chars: &CharPairs, s: &[u8], at: usize) -> Result<Measured, Refusal>
    ensures { result ≡ measured (λ i. length (id_text i)) (id_parser at (drop at s.now)) }
{
    let (n, next) = le_u8(s, at)?;
    match n {
        0xff => nameless_measured(s, next),
        0 => Ok(Measured { at: next, long: 4 }),
        _ => words_measured(chars, s, next, n),
    }
}
