// Floats and the values that are made of several. A float that is a NaN has lost its bits: those beside the floats stand in. Each is stored where there is
// room for any of its kind: 21 bytes for one, 100 for up to four.
#![tactic(auto)]

ghost use Rattle.std.specs.Prelude.{◌+◌, ◌≤◌, ◌≡◌, length};
ghost use Rattle.bsii_format.specs.Digits.{decimal};
ghost use Rattle.bsii_format.specs.Floats.{bits_text, minus_if, float_text};
ghost use Rattle.bsii_window.specs.Stored.{Stored};
ghost use Rattle.bsii_float_text.specs.Floats.{mark, row_with, vec7_with, placement_with};

use bsii_float::floats::{Bits, Floats, Placement, Vec7, bits_of};
use bsii_float::placement::{quiet, sector_sum, sectors_of};
use bsii_float::whole::{Whole, whole_number};
use bsii_window::digits::{store_decimal, store_hex};
use bsii_window::window::{store_byte, store_text};
use bsii_write::numbers::store_negative;

fn store_bits(out: &mut [u8], to: usize, n: u32) -> usize
    requires { to + 21 ≤ length out.old }
    ensures { Stored out.old to (bits_text n) result out.new × (result ≤ to + 21) }
{
    let next = store_byte(out, to, b'&');
    store_hex(out, next, n)
}

fn store_whole(out: &mut [u8], to: usize, n: Whole) -> usize
    requires { to + 21 ≤ length out.old }
    ensures { Stored out.old to (minus_if n.negative (decimal n.size)) result out.new × (result ≤ to + 21) }
{
    if n.negative {
        store_negative(out, to, n.size as u64)
    } else {
        store_decimal(out, to, n.size as u64)
    }
}

pub fn store_float(out: &mut [u8], to: usize, n: u32) -> usize
    requires { to + 21 ≤ length out.old }
    ensures { Stored out.old to (float_text n) result out.new × (result ≤ to + 21) }
{
    match whole_number(n) {
        Some(whole) => store_whole(out, to, whole),
        None => store_bits(out, to, n),
    }
}

// What stands before the float at an index.
fn store_mark<const N: usize>(out: &mut [u8], to: usize, i: usize) -> usize
    requires { to + 2 ≤ length out.old }
    ensures { Stored out.old to (mark N i) result out.new × (result ≤ to + 2) }
{
    match i {
        0 => store_byte(out, to, b'('),
        1 if N == 4 => store_text(out, to, b"; "),
        _ => store_text(out, to, b", "),
    }
}

// Two, three or four floats.
pub fn store_floats<const N: usize>(out: &mut [u8], to: usize, v: Floats<N>, nan: Bits<N>) -> usize
    requires count { (2 ≤ N) × (N ≤ 4) }
    requires room { to + 100 ≤ length out.old }
    ensures { Stored out.old to (row_with v.entry.items nan.entry.items) result out.new × (result ≤ to + 100) }
{
    let mut next = to;
    for i in 0..N {
        next = store_mark::<N>(out, next, i);
        next = store_float(out, next, bits_of(v.items[i], nan.items[i]));
    }
    store_byte(out, next, b')')
}

// A placement of version 1, as it stands: no sum is made.
pub fn store_vec7(out: &mut [u8], to: usize, v: Vec7, nan: Bits<7>) -> usize
    requires { to + 201 ≤ length out.old }
    ensures { Stored out.old to (vec7_with v.items nan.items) result out.new × (result ≤ to + 201) }
{
    let [a, b, c, d, e, f, g] = v.items;
    let [p, q, r, s, t, u, w] = nan.items;
    let position = Floats { items: [a, b, c] };
    let position_bits = Bits { items: [p, q, r] };
    let turn = Floats {
        items: [d, e, f, g],
    };
    let turn_bits = Bits {
        items: [s, t, u, w],
    };
    let first = store_floats(out, to, position, position_bits);
    let next = store_byte(out, first, b' ');
    store_floats(out, next, turn, turn_bits)
}

// The position with its sector, and the turn. Its own two stores: by store_vec7 a placement takes 20 instructions more.
pub fn store_placement(out: &mut [u8], to: usize, v: Placement, nan: Bits<8>) -> usize
    requires { to + 201 ≤ length out.old }
    ensures { Stored out.old to (placement_with v.items nan.items) result out.new × (result ≤ to + 201) }
{
    let [a, b, c, d, e, f, g, h] = v.items;
    let [p, q, r, s, t, u, w, x] = nan.items;
    let sectors = sectors_of(bits_of(d, s));
    let position = Floats {
        items: [sector_sum(a, sectors.x), b, sector_sum(c, sectors.z)],
    };
    let position_bits = Bits {
        items: [quiet(p), q, quiet(r)],
    };
    let turn = Floats {
        items: [e, f, g, h],
    };
    let turn_bits = Bits {
        items: [t, u, w, x],
    };
    let first = store_floats(out, to, position, position_bits);
    let next = store_byte(out, first, b' ');
    store_floats(out, next, turn, turn_bits)
}
