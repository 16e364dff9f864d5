// Runs the files of a list through the calls, and says which answers differ from the Rust's. The list is read from standard input.
#![tactic(auto)]

mod compare;
mod list;

ghost use Rattle.std.specs.Prelude.{◌≤◌, ◌≡◌, true, length, IfOk};

use crate::compare::{Difference, replay};
use crate::list::{bytes_at, number};
use bsii_string::numbers::size;
use sii_io::{large_buffer, read_full};
use std::io;
use std::io::{Print, Read, Write};

fn print(rt: &impl Print, text: &[u8]) -> io::Result<()> {
    io::writer(rt).write_all(text)
}

fn differs(rt: &impl Print, s: &[u8], index: u32, what: Difference) -> io::Result<()> {
    print!(rt; "file {index}, ")?;
    print(rt, bytes_at(s, 16))?;
    println!(rt; ": {what}")
}

// A record against the calls; whether all is equal.
fn is_equal(
    rt: &impl Print,
    s: &[u8],
    table: &mut [u32],
    output: &mut [u8],
    index: u32,
) -> io::Result<bool> {
    if let Err(what) = replay(s, table, output) {
        differs(rt, s, index, what)?;
        return Ok(false);
    }
    Ok(true)
}

// The list's next n bytes, at the buffer's start; whether there are n, and room for them.
fn fill<R: Read>(input: &mut R, buffer: &mut [u8], n: usize) -> io::Result<bool>
    ensures room { IfOk result (λ r. r ≡ true → n ≤ length buffer.new) }
    ensures same_length { length buffer.new ≡ length buffer.old }
{
    if buffer.len() < n {
        return Ok(false);
    }
    let got = read_full(input, &mut buffer[..n])?;
    Ok(got == n)
}

// Whether the list goes on with these bytes.
fn goes_on<R: Read>(input: &mut R, buffer: &mut [u8], expected: &[u8]) -> io::Result<bool> {
    let n = expected.len();
    if !fill(input, buffer, n)? {
        return Ok(false);
    }
    Ok(&buffer[..n] == expected)
}

// The list's next four bytes as a number: none where it ends.
fn next_number<R: Read>(input: &mut R, buffer: &mut [u8]) -> io::Result<Option<u32>> {
    if !fill(input, buffer, 4)? {
        return Ok(None);
    }
    Ok(Some(number(buffer, 0)))
}

// The list's next record against the calls, whether all is equal: none where the list ends.
fn turn<R: Read>(
    rt: &impl Print,
    input: &mut R,
    buffer: &mut [u8],
    table: &mut [u32],
    output: &mut [u8],
    index: u32,
) -> io::Result<Option<bool>> {
    let Some(length) = next_number(input, buffer)? else {
        return Ok(None);
    };
    let n = size(length);
    if !fill(input, buffer, n)? {
        return Ok(None);
    }
    Ok(Some(is_equal(rt, &buffer[..n], table, output, index)?))
}

fn print_counts(rt: &impl Print, files: u32, equal: u32) -> io::Result<()> {
    println!(rt; "replayed {files} files: {equal} equal")
}

// `count` records.
fn replay_list<R: Read>(
    rt: &impl Print,
    input: &mut R,
    buffer: &mut [u8],
    table: &mut [u32],
    output: &mut [u8],
    count: u32,
) -> io::Result<()> {
    let mut equal: u32 = 0;
    for index in 0..count {
        match turn(rt, input, buffer, table, output, index)? {
            Some(true) => equal += 1,
            Some(false) => {}
            None => return print_counts(rt, index, equal),
        }
    }
    print_counts(rt, count, equal)
}

fn run<R: Read>(
    rt: &impl Print,
    input: &mut R,
    buffer: &mut [u8],
    table: &mut [u32],
    output: &mut [u8],
) -> io::Result<()> {
    if !goes_on(input, buffer, b"BSII answers, 1\n")? {
        return print(rt, b"this is no list of answers\n");
    }
    let Some(count) = next_number(input, buffer)? else {
        return print(rt, b"the list ends early\n");
    };
    replay_list(rt, input, buffer, table, output, count)?;
    if !goes_on(input, buffer, b"end\n")? {
        return print(rt, b"the list ends early\n");
    }
    Ok(())
}

fn main(rt: HostRuntime) -> io::Result<()> {
    let mut buffer = large_buffer();
    let mut table = [0u32; 768];
    let mut output = large_buffer();
    run(&rt, &mut rt.stdin(), &mut buffer, &mut table, &mut output)
}
