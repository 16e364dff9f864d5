// Decimal and hexadecimal numbers.
ghost use Rattle.std.specs.Prelude.{◌≡◌, ◌+◌, ◌≤◌, length};
ghost use Rattle.bsii_format.specs.Digits.{decimal, hexadecimal, hex_padded};
ghost use Rattle.bsii_window.specs.Stored.{Stored};
ghost use Rattle.bsii_window.specs.Window.{Wrote};

use crate::window::{Overlap, further, overlap_of, put_all, store_byte};
use bsii_digits::{decimal_count, decimal_digit, fill_decimal, fill_four, fill_hex, hex_count};

// Where there is room for any number. Many have one digit.
pub fn store_decimal(out: &mut [u8], to: usize, n: u64) -> usize
    requires { to + 20 ≤ length out.old }
    ensures { Stored out.old to (decimal n) result out.new × (result ≤ to + 20) }
{
    if n < 10 {
        return store_byte(out, to, decimal_digit(n));
    }
    let end = to + decimal_count(n);
    fill_decimal(out, end, n);
    end
}

// By a copy, for a text across an edge of the window. The longest has 20 digits.
fn put_decimal(out: &mut [u8], at: usize, n: u64, count: usize) -> usize
    requires { count ≡ length (decimal n) }
    ensures { Wrote out.old at (decimal n) result out.new }
{
    let mut text = [0u8; 20];
    fill_decimal(&mut text, count, n);
    put_all(out, at, &text[..count])
}

pub fn write_decimal(out: &mut [u8], at: usize, n: u64) -> usize
    ensures { Wrote out.old at (decimal n) result out.new }
{
    let count = decimal_count(n);
    match overlap_of(out.len(), at, count) {
        Overlap::Past => further(at, count),
        Overlap::Across => put_decimal(out, at, n, count),
        Overlap::Inside(start) => {
            fill_decimal(out, start + count, n);
            at + count
        }
    }
}

// By a copy, for a text across an edge of the window.
fn put_hex(out: &mut [u8], at: usize, n: u64, count: u32) -> usize
    requires { count ≤ 16 }
    ensures { Wrote out.old at (hex_padded count n) result out.new }
{
    let width = count as usize;
    let mut text = [0u8; 16];
    fill_hex(&mut text, width, n, count);
    put_all(out, at, &text[..width])
}

// The last `count` digits.
pub fn write_hex_padded(out: &mut [u8], at: usize, n: u64, count: u32) -> usize
    requires { count ≤ 16 }
    ensures { Wrote out.old at (hex_padded count n) result out.new }
{
    let width = count as usize;
    match overlap_of(out.len(), at, width) {
        Overlap::Past => further(at, width),
        Overlap::Across => put_hex(out, at, n, count),
        Overlap::Inside(start) => {
            fill_hex(out, start + width, n, count);
            at + width
        }
    }
}

// Without leading zeros, where there is room for any number. Most have eight digits.
pub fn store_hex(out: &mut [u8], to: usize, n: u32) -> usize
    requires { to + 8 ≤ length out.old }
    ensures { Stored out.old to (hexadecimal n) result out.new × (result ≤ to + 8) }
{
    let wide = u64::from(n);
    if 0xfff_ffff < n {
        fill_four(out, to, wide / 0x1_0000);
        fill_four(out, to + 4, wide);
        return to + 8;
    }
    let count = hex_count(wide);
    let end = to + (count as usize);
    fill_hex(out, end, wide, count);
    end
}
