// The calls' answers against those of a record.
ghost use Rattle.std.specs.Prelude.{◌≡◌, ◌<◌, length, IfOk};
ghost use Rattle.bsii_format.specs.Replies.{number_of};
ghost use Rattle.bsii_format.specs.Calls.{reading_call, named_block_call, text_call};
ghost use Rattle.replay.specs.Agree.{rust_number, same_counts, same_reading, same_number, is_absent, same_bytes, same_text};

use crate::list::{Part, bytes_at, number, part_at};
use bsii_file::blocks::blocks_by_prototype_name;
use bsii_format::Cause;
use bsii_output::text::to_siin;
use bsii_parse::reading::parse;
use bsii_string::numbers::size;
use std::fmt;

// Why a record is not equal: the call whose answer differs, or that the record itself is broken.
#[derive(Clone, Copy, Debug, PartialEq, Eq)]
pub enum Difference {
    Reading,
    LookUp,
    Text,
    Broken,
}

impl fmt::Display for Difference {
    fn fmt<W: fmt::Write>(&self, f: &mut fmt::Formatter<W>) -> fmt::Result {
        match self {
            Difference::Reading => write!(f, "reading"),
            Difference::LookUp => write!(f, "look-up"),
            Difference::Text => write!(f, "text"),
            Difference::Broken => write!(f, "broken record"),
        }
    }
}

fn same_counts(reply: u32, p: usize, b: usize, prototypes: u32, blocks: u32) -> bool
    ensures { result ≡ same_counts reply p b prototypes blocks }
{
    if reply != 0 {
        return false;
    }
    if p != size(prototypes) {
        return false;
    }
    b == size(blocks)
}

// Under which number the list has a refusal: a bad mark is the Rust's InvalidInput, as bytes that run out are.
fn rust_number(cause: Cause) -> u32
    ensures { result ≡ rust_number (number_of cause) }
{
    match cause {
        Cause::BadMark => Cause::Malformed.into(),
        other => other.into(),
    }
}

// Whether the reading call answers the Rust's counts, or refuses under the Rust's number, which is 0 if it refuses nothing.
fn same_reading(file: &[u8], table: &mut [u32], reply: u32, prototypes: u32, blocks: u32) -> bool
    ensures { result ≡ same_reading reply prototypes blocks (reading_call (length table.old) file.now) }
{
    match parse(file, table) {
        Ok(read) => same_counts(reply, read.prototypes, read.blocks, prototypes, blocks),
        Err(f) => rust_number(f.cause) == reply,
    }
}

// Whether the n-th block under the name has this number.
fn same_number(file: &[u8], table: &mut [u32], name: &[u8], n: usize, expected: u32) -> bool
    ensures { result ≡ same_number expected (named_block_call (length table.old) file.now name.now n) }
{
    match blocks_by_prototype_name(file, table, name, n) {
        Ok(k) => k == size(expected),
        Err(_) => false,
    }
}

// Whether there is no n-th block under the name.
fn is_absent(file: &[u8], table: &mut [u32], name: &[u8], n: usize) -> bool
    ensures { result ≡ is_absent (named_block_call (length table.old) file.now name.now n) }
{
    match blocks_by_prototype_name(file, table, name, n) {
        Ok(_) => false,
        Err(f) => matches!(f.cause, Cause::Absent),
    }
}

// Whether the blocks under the name have these numbers, in order, and there are no more.
fn same_numbers(file: &[u8], table: &mut [u32], name: &[u8], numbers: &[u8]) -> bool {
    for (n, word) in numbers.chunks(4).enumerate() {
        if !same_number(file, table, name, n, number(word, 0)) {
            return false;
        }
    }
    is_absent(file, table, name, numbers.len().div_ceil(4))
}

// The look-up at a position of the record: a name, and the numbers of its blocks. Where the next one starts.
fn look_up(file: &[u8], table: &mut [u32], s: &[u8], at: usize) -> Result<usize, Difference>
    ensures { IfOk result (λ next. at < next) }
{
    let name = part_at(s, at).ok_or(Difference::Broken)?;
    let numbers = part_at(s, name.end).ok_or(Difference::Broken)?;
    if !same_numbers(file, table, bytes_at(s, at), bytes_at(s, name.end)) {
        return Err(Difference::LookUp);
    }
    Ok(numbers.end)
}

// The look-ups from a position of the record to its end.
fn look_ups(file: &[u8], table: &mut [u32], s: &[u8], at: usize) -> Result<(), Difference> {
    let mut p = at;
    while p < s.len() {
        p = look_up(file, table, s, p)?;
    }
    Ok(())
}

// Whether the first n bytes are the text.
fn same_bytes(output: &[u8], n: usize, text: &[u8]) -> bool
    ensures { result ≡ same_bytes text.now n output.now }
{
    if n != text.len() {
        return false;
    }
    if output.len() < n {
        return false;
    }
    &output[..n] == text
}

// Whether the text call answers the Rust's text, or refuses under the Rust's number, which is 0 if it refuses nothing.
fn same_text(file: &[u8], table: &mut [u32], output: &mut [u8], reply: u32, text: &[u8]) -> bool
    ensures { result ≡ same_text reply text.now (text_call (length table.old) file.now output.old) }
{
    match to_siin(file, table, output) {
        Ok(converted) => {
            if reply != 0 {
                return false;
            }
            same_bytes(output, converted.length, text)
        }
        Err(short) => rust_number(short.refusal.cause) == reply,
    }
}

// The calls on a record's file: its label comes first, its text behind it.
pub fn replay(s: &[u8], table: &mut [u32], output: &mut [u8]) -> Result<(), Difference> {
    let file = part_at(s, 16).ok_or(Difference::Broken)?.end;
    let text = part_at(s, file).ok_or(Difference::Broken)?.end;
    let look = part_at(s, text).ok_or(Difference::Broken)?.end;
    if !same_reading(
        bytes_at(s, file),
        table,
        number(s, 0),
        number(s, 8),
        number(s, 12),
    ) {
        return Err(Difference::Reading);
    }
    if !same_text(
        bytes_at(s, file),
        table,
        output,
        number(s, 4),
        bytes_at(s, text),
    ) {
        return Err(Difference::Text);
    }
    look_ups(bytes_at(s, file), table, s, look)
}
