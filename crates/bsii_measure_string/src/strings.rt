// Strings.
ghost use Rattle.std.specs.Prelude.{◌≡◌, ◌-◌, ◌≤◌, length, drop};
ghost use Rattle.bsii_format.specs.Replies.{not_utf8};
ghost use Rattle.bsii_format.specs.Reader.{bytes, verify};
ghost use Rattle.bsii_format.specs.Utf8.{utf8};
ghost use Rattle.bsii_format.specs.Strings.{str_parser};
ghost use Rattle.bsii_format.specs.File.{length_limit};
ghost use Rattle.bsii_format.specs.Text.{string_text};
ghost use Rattle.bsii_measure_string.specs.Measured.{measured};

use crate::answers::Measured;
use bsii_format::Cause;
use bsii_string::answers::{Refusal, refused};
use bsii_string::strings::skip_str;
use bsii_string::utf8::is_utf8;
use bsii_text_length::strings::{Class, length_by, worst};

// A string's bytes. One look says how they are written and whether they are ASCII, which needs no check.
fn part_measured(s: &[u8], start: usize, next: usize) -> Result<Measured, Refusal>
    requires { (length s.now ≤ length_limit) × (start ≤ next) × (next ≤ length s.now) }
    ensures { result ≡ measured (λ t. length (string_text t)) (verify utf8 not_utf8 (bytes (next - start)) start (drop start s.now)) }
{
    let part = &s[start..next];
    let all = worst(part);
    if let Class::High = all {
        if !is_utf8(part) {
            return Err(refused(Cause::NotUtf8, start));
        }
    }
    Ok(Measured {
        at: next,
        long: length_by(part, all),
    })
}

pub fn string_measured(s: &[u8], at: usize) -> Result<Measured, Refusal>
    requires { length s.now ≤ length_limit }
    ensures { result ≡ measured (λ t. length (string_text t)) (str_parser at (drop at s.now)) }
{
    let next = skip_str(s, at)?;
    part_measured(s, at + 4, next)
}
