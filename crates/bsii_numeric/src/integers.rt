// Three i32. One store of any row, with a closure for its number, would need that closure's contract in its own: it is no plainer.
ghost use Rattle.std.specs.Prelude.{◌+◌, ◌≤◌, ◌++◌, length, map};
ghost use Rattle.bsii_format.specs.Ascii.{ascii};
ghost use Rattle.bsii_format.specs.Text.{int32_text};
ghost use Rattle.bsii_float.specs.Texts.{row_text};
ghost use Rattle.bsii_window.specs.Stored.{Stored};

use bsii_float::floats::Bits;
use bsii_window::window::{store_byte, store_text};
use bsii_write::numbers::store_i32;

fn store_further_int(out: &mut [u8], to: usize, n: u32) -> usize
    requires { to + 23 ≤ length out.old }
    ensures { Stored out.old to (ascii ", " ++ int32_text n) result out.new × (result ≤ to + 23) }
{
    let next = store_text(out, to, b", ");
    store_i32(out, next, n)
}

pub fn store_int_vec3(out: &mut [u8], to: usize, v: Bits<3>) -> usize
    requires { to + 100 ≤ length out.old }
    ensures { Stored out.old to (row_text (map int32_text v.items)) result out.new × (result ≤ to + 100) }
{
    let [a, b, c] = v.items;
    let open = store_byte(out, to, b'(');
    let first = store_i32(out, open, a);
    let second = store_further_int(out, first, b);
    let third = store_further_int(out, second, c);
    store_byte(out, third, b')')
}
