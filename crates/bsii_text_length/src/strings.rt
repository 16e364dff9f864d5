// Strings.
ghost use Rattle.std.specs.Prelude.{◌≡◌, ◌*◌, ◌≤◌, length};
ghost use Rattle.bsii_format.specs.File.{length_limit};
ghost use Rattle.bsii_format.specs.Text.{escaped, string_text};
ghost use Rattle.bsii_format.specs.Utf8.{◌to◌, within};
ghost use Rattle.bsii_text_length.specs.Classes.{class_of, worst as worstOf, escape_size};

// `\x` and two digits.
const ESCAPE: usize = 4;

// How a byte is written: bare, raw within quotes, or escaped; all but the last are ASCII. The largest class among a string's bytes decides for all of it.
#[derive(Clone, Copy, PartialEq, Eq, PartialOrd, Ord)]
pub enum Class {
    Bare,
    Quoted,
    Control,
    High,
}

fn class_of(b: u8) -> Class
    ensures { result ≡ class_of b }
{
    match b {
        0..=31 => Class::Control,
        128..=255 => Class::High,
        b'0'..=b'9' | b'A'..=b'Z' | b'_' | b'a'..=b'z' => Class::Bare,
        _ => Class::Quoted,
    }
}

// No byte ends the loop, so that it is compiled to steps of many bytes.
pub fn worst(bytes: &[u8]) -> Class
    ensures { result ≡ worstOf bytes.now }
{
    let mut all = Class::Bare;
    for b in bytes {
        all = all.max(class_of(*b));
    }
    all
}

// Whether a byte stands for itself within quotes.
pub fn is_raw(b: u8) -> bool
    ensures { result ≡ within (32 to 127) b }
{
    matches!(b, 32..=127)
}

fn escape_length(b: u8) -> usize
    ensures { result ≡ escape_size b }
{
    if is_raw(b) { 1 } else { ESCAPE }
}

fn escaped_length(bytes: &[u8]) -> usize
    requires { length bytes.now ≤ length_limit }
    ensures { (result ≡ length (escaped bytes.now)) × (result ≤ 4 * length bytes.now) }
{
    bytes.iter().map(|b| escape_length(*b)).sum()
}

// For one who knows the largest class: only strings with escapes are looked through again.
pub fn length_by(bytes: &[u8], worst: Class) -> usize
    requires { (length bytes.now ≤ length_limit) × (worst ≡ worstOf bytes.now) }
    ensures { result ≡ length (string_text bytes.now) }
{
    if bytes.is_empty() {
        return 2;
    }
    match worst {
        Class::Bare => bytes.len(),
        Class::Quoted => 2 + bytes.len(),
        Class::Control | Class::High => 2 + escaped_length(bytes),
    }
}

pub fn string_length(bytes: &[u8]) -> usize
    requires { length bytes.now ≤ length_limit }
    ensures { result ≡ length (string_text bytes.now) }
{
    length_by(bytes, worst(bytes))
}
