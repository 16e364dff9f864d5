// Encoded words and ids.
ghost use Rattle.std.specs.Prelude.{◌≡◌, ℕ, drop};
ghost use Rattle.bsii_format.specs.Numbers.{number};
ghost use Rattle.bsii_format.specs.Strings.{base38, encoded_str_parser, id_parser};
ghost use Rattle.bsii_format.proofs.Parsers.{encoded_str_exact};
ghost use Rattle.bsii_string.specs.Answers.{num_of, end_of};
ghost use Rattle.bsii_word.specs.Words.{spelled_as};

use bsii_base38::CharPairs;
use bsii_format::Cause;
use bsii_string::answers::{Read, Refusal, refused, short};
use bsii_string::numbers::{le_u8, le_u64, left};
use bsii_string::rows::{Item, row_end};

// How many characters a word has; none if a digit is 0.
//
// Two digits a turn: half as many divisions wait for the one before. Above the last digit the rest is zero, which is no fault: so of the last one or two
// only the lower is asked about.
pub fn spelled_length(chars: &CharPairs, n: u64) -> Option<usize>
    ensures { result ≡ spelled_as (base38 n) }
{
    let mut rest = n;
    let mut long: usize = 0;
    while 1443 < rest {
        let above = rest / 1444;
        if chars.has_zero(rest - above * 1444) {
            return None;
        }
        rest = above;
        long += 2;
    }
    if rest == 0 {
        return Some(long);
    }
    if chars.low_zero(rest) {
        return None;
    }
    if rest < 38 {
        return Some(long + 1);
    }
    Some(long + 2)
}

// The word's low 63 bits.
pub fn encoded_str_parser(chars: &CharPairs, s: &[u8], at: usize) -> Read<u64>
    ensures { num_of s.now result ≡ encoded_str_parser at (drop at s.now) }
{
    let (n, next) = le_u64(s, at)?;
    let low = n % 0x8000_0000_0000_0000;
    match spelled_length(chars, low) {
        Some(_) => Ok((low, next)),
        None => Err(refused(Cause::ZeroDigit, at)),
    }
}

pub fn word_end(chars: &CharPairs, s: &[u8], at: usize) -> Result<usize, Refusal>
    ensures { result ≡ end_of (encoded_str_parser at (drop at s.now)) }
{
    let (_, next) = encoded_str_parser(chars, s, at)?;
    Ok(next)
}

// A word of a row.
#[derive(Drop)]
struct Word<'a>(&'a CharPairs);

impl Item for Word<'_> {
    ghost value = { ℕ };

    ghost reader = { λ _. encoded_str_parser };

    ghost exact = { λ _. encoded_str_exact };

    fn end(&self, s: &[u8], at: usize) -> Result<usize, Refusal> {
        word_end(self.0, s, at)
    }
}

fn u64_end(s: &[u8], at: usize) -> Result<usize, Refusal>
    ensures { result ≡ end_of (number 8 at (drop at s.now)) }
{
    let rest = left(s, at);
    if rest < 8 {
        return Err(short(at, 8, rest));
    }
    Ok(at + 8)
}

pub fn id_parser(chars: &CharPairs, s: &[u8], at: usize) -> Result<usize, Refusal>
    ensures { result ≡ end_of (id_parser at (drop at s.now)) }
{
    let (n, next) = le_u8(s, at)?;
    if n == 0xff {
        return u64_end(s, next);
    }
    row_end(&Word(chars), s, next, n)
}
