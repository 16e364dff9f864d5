// Strings.
ghost use Rattle.std.specs.Prelude.{◌≡◌, drop};
ghost use Rattle.bsii_format.specs.Strings.{str_parser};
ghost use Rattle.bsii_string.specs.Answers.{str_of, end_of, unchecked_str};

use crate::answers::{Refusal, Text, refused};
use crate::numbers::{bytes_end, le_u32};
use crate::utf8::is_utf8;
use bsii_format::Cause;

pub fn str_parser(s: &[u8], at: usize) -> Result<Text, Refusal>
    ensures { str_of s.now result ≡ str_parser at (drop at s.now) }
{
    let (n, start) = le_u32(s, at)?;
    let next = bytes_end(s, start, n)?;
    if is_utf8(&s[start..next]) {
        Ok(Text { start, next })
    } else {
        Err(refused(Cause::NotUtf8, start))
    }
}

pub fn str_end(s: &[u8], at: usize) -> Result<usize, Refusal>
    ensures { result ≡ end_of (str_parser at (drop at s.now)) }
{
    let text = str_parser(s, at)?;
    Ok(text.next)
}

// The end of a string whose bytes were checked before: a second walk over names need not check them twice.
pub fn skip_str(s: &[u8], at: usize) -> Result<usize, Refusal>
    ensures { result ≡ end_of (unchecked_str at (drop at s.now)) }
{
    let (n, start) = le_u32(s, at)?;
    bytes_end(s, start, n)
}
