// Decimal and hexadecimal digits: how many there are, and each where it belongs, up to an index.
#![tactic(auto)]

ghost use Rattle.std.specs.Prelude.{◌≡◌, ◌+◌, ◌-◌, ◌≤◌, ◌<◌, [], ◌∷◌, length};
ghost use Rattle.std.proofs.lemmas.List.Edits.{sets};
ghost use Rattle.bsii_format.specs.Digits.{digit as digitOf, decimal, hexadecimal, hex_padded};
ghost use Rattle.bsii_digits.specs.Counts.{tens};

pub fn digit(d: u64) -> u8
    requires { d < 16 }
    ensures { result ≡ digitOf d }
{
    b"0123456789abcdef"[d as usize]
}

// A sum takes fewer instructions than the table, which has the letters too.
pub fn decimal_digit(d: u64) -> u8
    requires { d < 10 }
    ensures { result ≡ digitOf d }
{
    b'0' + d as u8
}

// From these numbers on there are more digits than their index says. By a table: `pow` multiplies in a loop.
static POWERS: [u64; 20] = [
    0,
    10,
    100,
    1000,
    10000,
    100000,
    1000000,
    10000000,
    100000000,
    1000000000,
    10000000000,
    100000000000,
    1000000000000,
    10000000000000,
    100000000000000,
    1000000000000000,
    10000000000000000,
    100000000000000000,
    1000000000000000000,
    10000000000000000000,
];

fn power(t: u32) -> u64
    requires { t < 20 }
    ensures { result ≡ tens t }
{
    POWERS[t as usize]
}

// How many digits there are, by the number's bits: 1233 / 4096 is the logarithm of 2, so that they are as many as its product says or one more.
pub fn decimal_count(n: u64) -> usize
    ensures { result ≡ length (decimal n) }
{
    let t = (64 - u64::leading_zeros(n)) * 1233 / 4096;
    if n < power(t) {
        return t as usize;
    }
    (t as usize) + 1
}

fn fill_pair(out: &mut [u8], at: usize, high: u8, low: u8)
    requires { at + 2 ≤ length out.old }
    ensures { out.new ≡ sets out.old at (high ∷ low ∷ []) }
{
    out[at] = high;
    out[at + 1] = low;
}

// The digits of a number below 100, up to an index.
fn fill_first(out: &mut [u8], end: usize, n: u64)
    requires { (n < 100) × (length (decimal n) ≤ end) × (end ≤ length out.old) }
    ensures { out.new ≡ sets out.old (end - length (decimal n)) (decimal n) }
{
    if n < 10 {
        out[end - 1] = decimal_digit(n);
        return;
    }
    fill_pair(out, end - 2, decimal_digit(n / 10), decimal_digit(n % 10));
}

// The digits up to an index, from the last ones on: two for each division. The number says when it ends: a `for` would have to count the digits again.
pub fn fill_decimal(out: &mut [u8], end: usize, n: u64)
    requires { (length (decimal n) ≤ end) × (end ≤ length out.old) }
    ensures { out.new ≡ sets out.old (end - length (decimal n)) (decimal n) }
{
    let mut i = end;
    let mut rest = n;
    while 99 < rest {
        i -= 2;
        fill_pair(
            out,
            i,
            decimal_digit(rest / 10 % 10),
            decimal_digit(rest % 10),
        );
        rest /= 100;
    }
    fill_first(out, i, rest);
}

// The last `count` digits up to an index, from the last ones on.
pub fn fill_hex(out: &mut [u8], end: usize, n: u64, count: u32)
    requires { (count ≤ end) × (end ≤ length out.old) }
    ensures { out.new ≡ sets out.old (end - count) (hex_padded count n) }
{
    let mut i = end;
    let mut rest = n;
    for _ in 0..count / 2 {
        i -= 2;
        fill_pair(out, i, digit(rest / 16 % 16), digit(rest % 16));
        rest /= 256;
    }
    if count % 2 == 1 {
        out[i - 1] = digit(rest % 16);
    }
}

// The last four digits, without a loop.
pub fn fill_four(out: &mut [u8], start: usize, n: u64)
    requires { start + 4 ≤ length out.old }
    ensures { out.new ≡ sets out.old start (hex_padded 4 n) }
{
    fill_pair(out, start, digit(n / 0x1000 % 16), digit(n / 0x100 % 16));
    fill_pair(out, start + 2, digit(n / 16 % 16), digit(n % 16));
}

// How many digits there are: the bits that are no leading zeros, by four.
pub fn hex_count(n: u64) -> u32
    ensures { (result ≡ length (hexadecimal n)) × (result ≤ 16) }
{
    if n == 0 {
        return 1;
    }
    (67 - u64::leading_zeros(n)) / 4
}
