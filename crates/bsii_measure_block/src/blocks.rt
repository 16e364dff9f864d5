// Data blocks.
ghost use Rattle.std.specs.Prelude.{◌≡◌};
ghost use Rattle.bsii_measure_block.specs.Sums.{Room};
ghost use Rattle.bsii_measure_block.specs.Blocks.{framed_by, Framed, BlockSummed};

use crate::fields::values_summed;
use crate::sums::{Sum, SummedBlock};
use bsii_base38::CharPairs;
use bsii_measure_string::words::id_measured;
use bsii_prototype::answers::NAME;
use bsii_prototype::skip::fields_at;
use bsii_string::answers::Refusal;

// With the first and the last line of a block under the prototype at an offset, whose definitions start at `first`: 6 and 2 bytes beside the name and
// the id.
fn framed(sum: Sum, prototype: usize, first: usize, id: usize) -> Sum
    requires { Framed sum prototype first id }
    ensures { result ≡ framed_by sum prototype first id }
{
    let name = first - (prototype + NAME);
    Sum {
        to: sum.to + (name + id + 8),
        ..sum
    }
}

// The block whose own id starts at `at`, under the prototype at the offset `prototype`. Both its lines are added in front of its values.
pub fn block_summed(
    chars: &CharPairs,
    s: &[u8],
    version: u32,
    prototype: usize,
    at: usize,
    sum: Sum,
) -> Result<SummedBlock, Refusal>
    requires { Room s.now at sum }
    ensures { BlockSummed version s.now prototype at sum result }
{
    let first = fields_at(s, prototype)?;
    let id = id_measured(chars, s, at)?;
    let frame = framed(sum, prototype, first, id.long);
    values_summed(chars, s, version, first, id.at, frame)
}
