// Whole numbers and truth values, where there is room for any: the longest have a sign and 20 digits.
ghost use Rattle.std.specs.Prelude.{◌+◌, ◌*◌, ◌<◌, ◌≤◌, ◌++◌, length};
ghost use Rattle.bsii_format.specs.Ascii.{ascii};
ghost use Rattle.bsii_format.specs.Numbers.{signed};
ghost use Rattle.bsii_format.specs.Digits.{decimal, decimal_int};
ghost use Rattle.bsii_format.specs.Text.{or_nil, bool_text, int32_text};
ghost use Rattle.bsii_window.specs.Stored.{Stored};

use bsii_window::digits::store_decimal;
use bsii_window::window::{store_byte, store_text};

pub fn store_or_nil(out: &mut [u8], to: usize, n: u64, largest: u64) -> usize
    requires { to + 21 ≤ length out.old }
    ensures { Stored out.old to (or_nil largest n) result out.new × (result ≤ to + 21) }
{
    if n == largest {
        return store_text(out, to, b"nil");
    }
    store_decimal(out, to, n)
}

pub fn store_negative(out: &mut [u8], to: usize, size: u64) -> usize
    requires { to + 21 ≤ length out.old }
    ensures { Stored out.old to (ascii "-" ++ decimal size) result out.new × (result ≤ to + 21) }
{
    let next = store_byte(out, to, b'-');
    store_decimal(out, next, size)
}

// A number by its two's complement: those from HALF on are negative, and stand for twice HALF less, which may be 2^64.
fn store_signed<const HALF: u64>(out: &mut [u8], to: usize, n: u64) -> usize
    requires { (n < 2 * HALF) × (to + 21 ≤ length out.old) }
    ensures { Stored out.old to (decimal_int (signed HALF n)) result out.new × (result ≤ to + 21) }
{
    if n < HALF {
        return store_decimal(out, to, n);
    }
    store_negative(out, to, HALF.wrapping_mul(2).wrapping_sub(n))
}

pub fn store_i32(out: &mut [u8], to: usize, n: u32) -> usize
    requires { to + 21 ≤ length out.old }
    ensures { Stored out.old to (int32_text n) result out.new × (result ≤ to + 21) }
{
    store_signed::<0x8000_0000>(out, to, u64::from(n))
}

pub fn store_i64(out: &mut [u8], to: usize, n: u64) -> usize
    requires { to + 21 ≤ length out.old }
    ensures { Stored out.old to (decimal_int (signed 0x8000_0000_0000_0000 n)) result out.new × (result ≤ to + 21) }
{
    store_signed::<0x8000_0000_0000_0000>(out, to, n)
}

pub fn store_bool(out: &mut [u8], to: usize, n: u32) -> usize
    requires { to + 21 ≤ length out.old }
    ensures { Stored out.old to (bool_text n) result out.new × (result ≤ to + 21) }
{
    if n == 0 {
        return store_text(out, to, b"false");
    }
    store_text(out, to, b"true")
}
