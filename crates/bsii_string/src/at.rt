// Numbers by their values alone: 0 where the bytes run out. Contracts that use them speak of bytes that were accepted, where they don't.
// Each width is one line, so one function over all widths would be no plainer.
ghost use Rattle.std.specs.Prelude.{◌≡◌};
ghost use Rattle.bsii_string.specs.NumbersAt.{number_at};

use crate::numbers::{le_u8, le_u32, le_u64, left};

pub fn u8_at(s: &[u8], at: usize) -> u32
    ensures { result ≡ number_at 1 s.now at }
{
    le_u8(s, at).map_or(0, |(value, _)| value)
}

pub fn u16_at(s: &[u8], at: usize) -> u16
    ensures { result ≡ number_at 2 s.now at }
{
    if left(s, at) < 2 {
        return 0;
    }
    u16::from_le_bytes([s[at], s[at + 1]])
}

pub fn u32_at(s: &[u8], at: usize) -> u32
    ensures { result ≡ number_at 4 s.now at }
{
    le_u32(s, at).map_or(0, |(value, _)| value)
}

pub fn u64_at(s: &[u8], at: usize) -> u64
    ensures { result ≡ number_at 8 s.now at }
{
    le_u64(s, at).map_or(0, |(value, _)| value)
}
