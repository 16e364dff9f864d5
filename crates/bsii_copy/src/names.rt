// Names, most of which are short: eight bytes by one load and one store of the machine, in place of a call for a run.
ghost use Rattle.std.specs.Prelude.{◌≡◌, ◌+◌, ◌-◌, ◌≤◌, ◌<◌, length, take, drop};
ghost use Rattle.std.proofs.lemmas.List.Edits.{sets};
ghost use Rattle.bsii_window.specs.Stored.{Stored};

use bsii_window::window::store;

// N bytes of the text, through an array: all loads stand in front of the stores, so that the compiler makes one of them.
fn copy_piece<const N: usize>(out: &mut [u8], to: usize, text: &[u8], from: usize)
    requires { (to + N ≤ length out.old) × (from + N ≤ length text.now) }
    ensures { out.new ≡ sets out.old to (take N (drop from text.now)) }
{
    let mut piece = [0u8; N];
    for i in 0..N {
        piece[i] = text[from + i];
    }
    for i in 0..N {
        out[to + i] = piece[i];
    }
}

// What is left of a text, without a loop: the compiler would make a call of one.
fn copy_last(out: &mut [u8], to: usize, text: &[u8], from: usize)
    requires { (from ≤ length text.now) × (length text.now < from + 2) × (to + (length text.now - from) ≤ length out.old) }
    ensures { out.new ≡ sets out.old to (drop from text.now) }
{
    if from < text.len() {
        out[to] = text[from];
    }
}

fn copy_below_four(out: &mut [u8], start: usize, name: &[u8])
    requires { (length name.now < 4) × (start + length name.now ≤ length out.old) }
    ensures { out.new ≡ sets out.old start name.now }
{
    if name.len() < 2 {
        copy_last(out, start, name, 0);
        return;
    }
    copy_piece::<2>(out, start, name, 0);
    copy_last(out, start + 2, name, 2);
}

// The first four bytes and the last four, some of them twice: no branch for each length.
fn copy_below_eight(out: &mut [u8], start: usize, name: &[u8])
    requires { (length name.now < 8) × (start + length name.now ≤ length out.old) }
    ensures { out.new ≡ sets out.old start name.now }
{
    if name.len() < 4 {
        copy_below_four(out, start, name);
        return;
    }
    let last = name.len() - 4;
    copy_piece::<4>(out, start, name, 0);
    copy_piece::<4>(out, start + last, name, last);
}

// Eights from the front on, until eight bytes or fewer are left; and how many were copied.
fn copy_front(out: &mut [u8], start: usize, name: &[u8]) -> usize
    requires { (8 ≤ length name.now) × (length name.now ≤ 32) × (start + length name.now ≤ length out.old) }
    ensures { (out.new ≡ sets out.old start (take result name.now)) × (result ≤ length name.now) × (length name.now ≤ result + 8) }
{
    copy_piece::<8>(out, start, name, 0);
    if name.len() <= 16 {
        return 8;
    }
    copy_piece::<8>(out, start + 8, name, 8);
    if name.len() <= 24 {
        return 16;
    }
    copy_piece::<8>(out, start + 16, name, 16);
    24
}

// The last eight bytes once more, for those that are left.
fn copy_short(out: &mut [u8], start: usize, name: &[u8])
    requires { (8 ≤ length name.now) × (length name.now ≤ 32) × (start + length name.now ≤ length out.old) }
    ensures { out.new ≡ sets out.old start name.now }
{
    copy_front(out, start, name);
    let last = name.len() - 8;
    copy_piece::<8>(out, start + last, name, last);
}

// A long name by one call.
pub fn copy_name(out: &mut [u8], start: usize, name: &[u8])
    requires { start + length name.now ≤ length out.old }
    ensures { out.new ≡ sets out.old start name.now }
{
    if name.len() < 8 {
        copy_below_eight(out, start, name);
        return;
    }
    if name.len() <= 32 {
        copy_short(out, start, name);
        return;
    }
    store(out, start, name);
}

// The index behind it too.
pub fn store_name(out: &mut [u8], to: usize, name: &[u8]) -> usize
    requires { to + length name.now ≤ length out.old }
    ensures { Stored out.old to name.now result out.new }
{
    copy_name(out, to, name);
    to + name.len()
}
