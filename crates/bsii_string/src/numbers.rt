// Little-endian numbers. Each width is a function of two or three lines, so one over all widths would be no plainer.
ghost use Rattle.std.specs.Prelude.{◌≡◌, ◌+◌, ◌-◌, ◌≤◌, length, take, drop};
ghost use Rattle.bsii_format.specs.Reader.{bytes};
ghost use Rattle.bsii_format.specs.Numbers.{little_endian, number};
ghost use Rattle.bsii_string.specs.Answers.{end_of, num_of};

use crate::answers::{Read, Refusal, short};

// A cast: std's From<u32> has no usize, and TryFrom would be no plainer.
pub fn size(x: u32) -> usize
    ensures { result ≡ x }
{
    x as usize
}

// How many bytes there are from a position on: none past the end.
pub fn left(s: &[u8], at: usize) -> usize
    ensures { result ≡ length s.now - at }
{
    s.len().saturating_sub(at)
}

// Where so many bytes from a position on end.
pub fn bytes_end(s: &[u8], at: usize, count: u32) -> Result<usize, Refusal>
    ensures { result ≡ end_of (bytes count at (drop at s.now)) }
{
    let rest = left(s, at);
    if rest < size(count) {
        return Err(short(at, count, rest));
    }
    Ok(at + size(count))
}

pub fn le_u8(s: &[u8], at: usize) -> Read<u32>
    ensures { num_of s.now result ≡ number 1 at (drop at s.now) }
{
    let next = bytes_end(s, at, 1)?;
    Ok((u32::from(s[at]), next))
}

// Four bytes that are there.
pub fn quad(s: &[u8], at: usize) -> u32
    requires { at + 4 ≤ length s.now }
    ensures { result ≡ little_endian (take 4 (drop at s.now)) }
{
    u32::from_le_bytes([s[at], s[at + 1], s[at + 2], s[at + 3]])
}

pub fn le_u32(s: &[u8], at: usize) -> Read<u32>
    ensures { num_of s.now result ≡ number 4 at (drop at s.now) }
{
    let next = bytes_end(s, at, 4)?;
    Ok((quad(s, at), next))
}

pub fn le_u64(s: &[u8], at: usize) -> Read<u64>
    ensures { num_of s.now result ≡ number 8 at (drop at s.now) }
{
    let next = bytes_end(s, at, 8)?;
    let low = u64::from(quad(s, at));
    let high = u64::from(quad(s, at + 4));
    Ok((low + high * 0x1_0000_0000, next))
}
