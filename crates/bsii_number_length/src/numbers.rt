// Whole numbers and truth values.
ghost use Rattle.std.specs.Prelude.{◌≡◌, ◌≤◌, length};
ghost use Rattle.bsii_format.specs.Numbers.{signed};
ghost use Rattle.bsii_format.specs.Digits.{decimal_int};
ghost use Rattle.bsii_format.specs.Text.{or_nil, bool_text, int32_text};

use bsii_digits::decimal_count;

pub fn or_nil_length(n: u64, largest: u64) -> usize
    ensures { (result ≡ length (or_nil largest n)) × (result ≤ 20) }
{
    if n == largest { 3 } else { decimal_count(n) }
}

// An i32 by its two's complement.
pub fn i32_length(n: u32) -> usize
    ensures { (result ≡ length (int32_text n)) × (result ≤ 21) }
{
    if n < 0x8000_0000 {
        decimal_count(n as u64)
    } else {
        1 + decimal_count(n.wrapping_neg() as u64)
    }
}

pub fn i64_length(n: u64) -> usize
    ensures { (result ≡ length (decimal_int (signed 0x8000_0000_0000_0000 n))) × (result ≤ 21) }
{
    if n < 0x8000_0000_0000_0000 {
        decimal_count(n)
    } else {
        1 + decimal_count(n.wrapping_neg())
    }
}

pub fn bool_length(n: u32) -> usize
    ensures { (result ≡ length (bool_text n)) × (result ≤ 5) }
{
    if n == 0 { 5 } else { 4 }
}
