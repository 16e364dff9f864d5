// Ids.
ghost use Rattle.std.specs.Prelude.{◌≡◌, ◌++◌, ◌+◌, ◌-◌, ◌*◌, ◌≤◌, length};
ghost use Rattle.std.proofs.lemmas.List.Edits.{sets};
ghost use Rattle.bsii_format.specs.Ascii.{ascii};
ghost use Rattle.bsii_format.specs.Digits.{hex_padded};
ghost use Rattle.bsii_format.specs.Text.{groups, id_text};
ghost use Rattle.bsii_format.specs.Strings.{nameless};
ghost use Rattle.bsii_window.specs.Stored.{Stored};
ghost use Rattle.bsii_write_id.specs.Ids.{dotted_at, IdStored, IdLength, IdWritten};

use bsii_base38::CharPairs;
use bsii_digits::{fill_four, fill_hex, hex_count};
use bsii_string::at::{u8_at, u64_at};
use bsii_text_length::words::word_length;
use bsii_window::window::{Overlap, further, overlap_of, put_all, store_byte, store_text};
use bsii_write_word::words::store_word;

// A dot and the last `count` digits, up to an index: the first group, without leading zeros.
fn fill_group(out: &mut [u8], end: usize, n: u64, count: u32)
    requires { (count + 1 ≤ end) × (end ≤ length out.old) }
    ensures { out.new ≡ sets out.old (end - (count + 1)) (ascii "." ++ hex_padded count n) }
{
    let width = count as usize;
    out[end - (width + 1)] = b'.';
    fill_hex(out, end, n, count);
}

// A dot and four digits, without a loop.
fn fill_later_group(out: &mut [u8], end: usize, n: u64)
    requires { (5 ≤ end) × (end ≤ length out.old) }
    ensures { out.new ≡ sets out.old (end - 5) (ascii "." ++ hex_padded 4 n) }
{
    out[end - 5] = b'.';
    fill_four(out, end - 4, n);
}

// The groups up to an index, from the last one on: a dot and four digits for each division.
fn fill_groups(out: &mut [u8], end: usize, n: u64)
    requires { (length (groups 3 n) ≤ end) × (end ≤ length out.old) }
    ensures { out.new ≡ sets out.old (end - length (groups 3 n)) (groups 3 n) }
{
    let mut i = end;
    let mut rest = n;
    while 0xffff < rest {
        fill_later_group(out, i, rest % 0x1_0000);
        i -= 5;
        rest = rest / 0x1_0000;
    }
    fill_group(out, i, rest, hex_count(rest));
}

// `_nameless`, the digits, and a dot for every four of them.
pub fn nameless_length(n: u64) -> usize
    ensures { (result ≡ length (id_text (nameless n))) × (result ≤ 29) }
{
    let digits = hex_count(n) as usize;
    9 + digits + (digits + 3) / 4
}

fn store_nameless(out: &mut [u8], to: usize, n: u64) -> usize
    requires { to + 29 ≤ length out.old }
    ensures { Stored out.old to (id_text (nameless n)) result out.new × (result ≤ to + 29) }
{
    store_text(out, to, b"_nameless");
    let end = to + nameless_length(n);
    fill_groups(out, end, n);
    end
}

// `count` words behind the first one, without their bit 63, each with a dot in front.
fn store_dotted(chars: &CharPairs, out: &mut [u8], to: usize, raw: &[u8], count: u32) -> usize
    requires { to + 14 * count ≤ length out.old }
    ensures { Stored out.old to (dotted_at count raw.now 9) result out.new × (result ≤ to + 14 * count) }
{
    let mut place = 9;
    let mut here = to;
    for _ in 0..count {
        let next = store_byte(out, here, b'.');
        here = store_word(chars, out, next, u64_at(raw, place) % 0x8000_0000_0000_0000);
        place += 8;
    }
    here
}

// The id of these bytes, which were accepted. Fewer bytes than the words need are no id.
pub fn store_id(chars: &CharPairs, out: &mut [u8], to: usize, raw: &[u8]) -> usize
    requires { to + 29 + 2 * length raw.now ≤ length out.old }
    ensures { IdStored raw.now out.old to result out.new }
{
    let n = u8_at(raw, 0);
    if n == 0xff {
        return store_nameless(out, to, u64_at(raw, 1));
    }
    if n == 0 {
        return store_text(out, to, b"null");
    }
    if raw.len() / 8 < n as usize {
        return to;
    }
    let next = store_word(chars, out, to, u64_at(raw, 1) % 0x8000_0000_0000_0000);
    store_dotted(chars, out, next, raw, n - 1)
}

fn dotted_length(raw: &[u8], count: u32) -> usize
    ensures { (result ≡ length (dotted_at count raw.now 9)) × (result ≤ 14 * count) }
{
    let mut place: usize = 9;
    let mut long: usize = 0;
    for _ in 0..count {
        long += 1 + word_length(u64_at(raw, place) % 0x8000_0000_0000_0000);
        place += 8;
    }
    long
}

fn id_length(raw: &[u8]) -> usize
    ensures { IdLength raw.now result }
{
    let n = u8_at(raw, 0);
    if n == 0xff {
        return nameless_length(u64_at(raw, 1));
    }
    if n == 0 {
        return 4;
    }
    if raw.len() / 8 < n as usize {
        return 0;
    }
    word_length(u64_at(raw, 1) % 0x8000_0000_0000_0000) + dotted_length(raw, n - 1)
}

// No id has more than 254 words, so longer bytes are none. Across an edge of the window it is put from an array.
pub fn write_id(chars: &CharPairs, out: &mut [u8], at: usize, raw: &[u8]) -> usize
    ensures { IdWritten raw.now out.old at result out.new }
{
    if 2033 < raw.len() {
        return at;
    }
    let place = overlap_of(out.len(), at, 29 + 2 * raw.len());
    match place {
        Overlap::Past => return further(at, id_length(raw)),
        Overlap::Across => {
            let mut text = [0u8; 4096];
            let end = store_id(chars, &mut text, 0, raw);
            return put_all(out, at, &text[..end]);
        }
        Overlap::Inside(start) => {
            let end = store_id(chars, out, start, raw);
            return end + 0x8000_0000_0000_0000;
        }
    }
}
