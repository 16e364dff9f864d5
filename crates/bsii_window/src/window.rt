// Bytes into a window.
ghost use Rattle.std.specs.Prelude.{◌≡◌, [], ◌∷◌, ◌+◌, ◌≤◌, ◌<◌, length};
ghost use Rattle.std.proofs.lemmas.List.Edits.{sets};
ghost use Rattle.bsii_window.specs.Window.{capped, Wrote};
ghost use Rattle.bsii_window.specs.Stored.{Stored};
ghost use Rattle.bsii_window.specs.Overlaps.{OverlapOf};

// The position of a window's first byte.
pub const ORIGIN: usize = 0x8000_0000_0000_0000;

// Where a text lies: all of it in the window, from an index on; past the window's end; or, for all that is known, across an edge.
#[derive(Drop)]
pub enum Overlap {
    Inside(usize),
    Past,
    Across,
}

// Where a text of `count` bytes lies, for a window of `room`.
pub fn overlap_of(room: usize, at: usize, count: usize) -> Overlap
    ensures { OverlapOf room at count result }
{
    if at < ORIGIN {
        return Overlap::Across;
    }
    let start = at - ORIGIN;
    if room <= start {
        return Overlap::Past;
    }
    if room - start < count {
        return Overlap::Across;
    }
    Overlap::Inside(start)
}

pub fn further(at: usize, count: usize) -> usize
    ensures { result ≡ capped at count }
{
    at.saturating_add(count)
}

pub fn put(out: &mut [u8], at: usize, byte: u8) -> usize
    ensures { Wrote out.old at (byte ∷ []) result out.new }
{
    if at < ORIGIN {
        return further(at, 1);
    }
    let index = at - ORIGIN;
    if out.len() <= index {
        return further(at, 1);
    }
    out[index] = byte;
    at + 1
}

// As much of the text as there is room for, from an index on. By a loop: `copy_from_slice` was tried, and takes five instructions more for a fixed text, since it
// tests for an overlap.
pub fn store(out: &mut [u8], start: usize, text: &[u8])
    requires { start ≤ length out.old }
    ensures { out.new ≡ sets out.old start text.now }
{
    let count = text.len().min(out.len() - start);
    for i in 0..count {
        out[start + i] = text[i];
    }
}

// Where there is room for it.
pub fn store_byte(out: &mut [u8], to: usize, byte: u8) -> usize
    requires { to < length out.old }
    ensures { Stored out.old to (byte ∷ []) result out.new }
{
    out[to] = byte;
    to + 1
}

// Without a test for its room, a fixed text takes a store or two. By a loop, as `store`.
pub fn store_text(out: &mut [u8], to: usize, text: &[u8]) -> usize
    requires { to + length text.now ≤ length out.old }
    ensures { Stored out.old to text.now result out.new }
{
    for i in 0..text.len() {
        out[to + i] = text[i];
    }
    to + text.len()
}

// As much of it as falls into the window, for a text across an edge.
fn put_across(out: &mut [u8], at: usize, text: &[u8]) -> usize
    ensures { Wrote out.old at text.now result out.new }
{
    let end = further(at, text.len());
    if end <= ORIGIN {
        return end;
    }
    if at < ORIGIN {
        let before = ORIGIN - at;
        store(out, 0, &text[before..]);
        return end;
    }
    let start = at - ORIGIN;
    if out.len() <= start {
        return end;
    }
    store(out, start, text);
    end
}

// Nothing is copied where the window ends in front of the text: measuring takes one sum, however long the text is. Where all of it lies in the window,
// a fixed text takes a store or two.
pub fn put_all(out: &mut [u8], at: usize, text: &[u8]) -> usize
    ensures { Wrote out.old at text.now result out.new }
{
    let count = text.len();
    match overlap_of(out.len(), at, count) {
        Overlap::Past => further(at, count),
        Overlap::Across => put_across(out, at, text),
        Overlap::Inside(start) => {
            store(out, start, text);
            at + count
        }
    }
}
