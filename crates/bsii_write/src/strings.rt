// Strings.
ghost use Rattle.std.specs.Prelude.{◌≡◌, ◌≤◌, length};
ghost use Rattle.bsii_format.specs.Text.{escaped, string_text};
ghost use Rattle.bsii_window.specs.Window.{Wrote};
ghost use Rattle.bsii_write.specs.Runs.{run_end, run};

use bsii_text_length::strings::{Class, is_raw, worst};
use bsii_window::digits::write_hex_padded;
use bsii_window::window::{put, put_all};

// The end of the run of raw bytes, those from 32 to 127, that starts at an index.
fn run_end(bytes: &[u8], start: usize) -> usize
    requires { start ≤ length bytes.now }
    ensures { result ≡ run_end bytes.now start }
{
    let rest = &bytes[start..];
    start + rest.iter().position(|b| !is_raw(*b)).unwrap_or(rest.len())
}

// The raw bytes from start to end, and the byte behind them, if there is one, as `\x` and two digits.
fn write_run(out: &mut [u8], at: usize, bytes: &[u8], start: usize, end: usize) -> usize
    requires { (start ≤ end) × (end ≤ length bytes.now) }
    ensures { Wrote out.old at (run bytes.now start end) result out.new }
{
    let next = put_all(out, at, &bytes[start..end]);
    if end < bytes.len() {
        let digits = put_all(out, next, b"\\x");
        return write_hex_padded(out, digits, u64::from(bytes[end]), 2);
    }
    next
}

// A turn passes a run and an escape, so no `for` counts the bytes for it.
fn write_escaped(out: &mut [u8], at: usize, bytes: &[u8]) -> usize
    ensures { Wrote out.old at (escaped bytes.now) result out.new }
{
    let mut i = 0;
    let mut to = at;
    while i < bytes.len() {
        let end = run_end(bytes, i);
        to = write_run(out, to, bytes, i, end);
        i = end + 1;
    }
    to
}

// Looked through once, unless it has escapes.
pub fn write_string(out: &mut [u8], at: usize, bytes: &[u8]) -> usize
    ensures { Wrote out.old at (string_text bytes.now) result out.new }
{
    if bytes.is_empty() {
        return put_all(out, at, b"\"\"");
    }
    match worst(bytes) {
        Class::Bare => put_all(out, at, bytes),
        Class::Quoted => {
            let first = put(out, at, b'"');
            let last = put_all(out, first, bytes);
            put(out, last, b'"')
        }
        _ => {
            let first = put(out, at, b'"');
            let last = write_escaped(out, first, bytes);
            put(out, last, b'"')
        }
    }
}
