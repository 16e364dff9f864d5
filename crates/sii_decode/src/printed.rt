// What is printed for an input.
ghost use Rattle.std.specs.Prelude.{◌≡◌, length};
ghost use Rattle.bsii_format.specs.Replies.{refuses};
ghost use Rattle.bsii_format.specs.Calls.{printed, program};
ghost use Rattle.bsii_string.specs.Answers.{fault_is};
ghost use Rattle.bsii_window.specs.Window.{Wrote};
ghost use Rattle.sii_decode.specs.Starts.{Starts};

use bsii_format::Cause;
use bsii_output::text::to_siin;
use bsii_string::answers::{Refusal, refused};
use bsii_window::digits::write_decimal;
use bsii_window::window::put_all;

// `refused N at P` and a line feed, at the output's start; the position behind it.
// By pieces and not by a Display: the clause says every byte, and a text made by `write!` would need a buffer of its own, without a heap.
fn write_refusal(output: &mut [u8], f: Refusal) -> usize
    ensures { Wrote output.old 0x8000_0000_0000_0000 (printed (refuses (fault_is f))) result output.new }
{
    let a = put_all(output, 0x8000_0000_0000_0000, b"refused ");
    let b = write_decimal(output, a, u64::from(u32::from(f.cause)));
    let c = put_all(output, b, b" at ");
    let d = write_decimal(output, c, f.offset as u64);
    put_all(output, d, b"\n")
}

// The same; its length.
fn print_refusal(output: &mut [u8], f: Refusal) -> usize
    requires { length output.old ≡ 65_536 }
    ensures { Starts output.new result (printed (refuses (fault_is f))) }
{
    write_refusal(output, f) - 0x8000_0000_0000_0000
}

// All that the program prints, at the output's start; its length.
pub fn print_into(input: &[u8], table: &mut [u32], output: &mut [u8]) -> usize
    requires { (length table.old ≡ 768) × (length output.old ≡ 65_536) }
    ensures { Starts output.new result (program input.now) }
{
    if 65_536 < input.len() {
        return print_refusal(output, refused(Cause::InputLong, 0));
    }
    match to_siin(input, table, output) {
        Ok(converted) => converted.length,
        Err(unwritten) => print_refusal(output, unwritten.refusal),
    }
}
