// The records of an index: read, compared and written. A number has `width` bytes, the low one first; a record has four numbers. The width
// is a number with `Width` beside it: all definitions speak of a number of bytes, so a struct with that invariant would be no plainer.
#![tactic(auto)]

ghost use Rattle.std.specs.Prelude.{◌≡◌, ◌+◌, ◌*◌, ◌≤◌, ◌++◌, length, take, drop};
ghost use Rattle.std.proofs.lemmas.List.Edits.{sets};
ghost use Rattle.bsii_format.specs.Reader.{same};
ghost use Rattle.bsii_format.specs.Numbers.{little_endian, le};
ghost use Rattle.bsii_format.specs.File.{length_limit};
ghost use Rattle.bsii_derived.specs.Index.{index_record_bytes, record_at};
ghost use Rattle.bsii_index_record.specs.Records.{Width, record_is, found_is, Agrees};

use bsii_string::numbers::left;

// How many bytes a number of an index has.
pub const WIDTH: usize = 3;

// A block's offset and length, and its prototype's offset and number of fields.
#[derive(Clone, Copy)]
pub struct IndexRecord {
    pub offset: usize,
    pub size: usize,
    pub prototype: usize,
    pub fields: usize,
}

// The number at `at`. Its bytes are taken from the last one on.
fn number_at(s: &[u8], at: usize, width: usize) -> usize
    requires { Width width × (at + width ≤ length s.now) }
    ensures { result ≡ little_endian (take width (drop at s.now)) }
{
    let mut n: usize = 0;
    for i in (0..width).rev() {
        n = n * 256 + usize::from(s[at + i]);
    }
    n
}

// Record number k, if all its bytes are there. A product of k might not fit, so it is compared with a quotient.
pub fn record_at(index: &[u8], width: usize, k: usize) -> Option<IndexRecord>
    requires { Width width }
    ensures { found_is result ≡ record_at width index.now k }
{
    let size = 4 * width;
    if index.len() / size <= k {
        return None;
    }
    let at = k * size;
    Some(IndexRecord {
        offset: number_at(index, at, width),
        size: number_at(index, at + width, width),
        prototype: number_at(index, at + 2 * width, width),
        fields: number_at(index, at + 3 * width, width),
    })
}

// Whether the bytes at `at` are those of the number.
fn number_is(s: &[u8], at: usize, width: usize, n: usize) -> bool
    ensures { result ≡ same (le width n) (take width (drop at s.now)) }
{
    if left(s, at) < width {
        return false;
    }
    let mut rest = n;
    for i in 0..width {
        if s[at + i] != (rest % 256) as u8 {
            return false;
        }
        rest = rest / 256;
    }
    true
}

// Whether the bytes at `at` are those of the record.
pub fn record_is(index: &[u8], at: usize, width: usize, entry: IndexRecord) -> bool
    requires { Width width }
    ensures { result ≡ same (index_record_bytes width (record_is entry)) (take (4 * width) (drop at index.now)) }
{
    if left(index, at) < 4 * width {
        return false;
    }
    number_is(index, at, width, entry.offset)
        && number_is(index, at + width, width, entry.size)
        && number_is(index, at + 2 * width, width, entry.prototype)
        && number_is(index, at + 3 * width, width, entry.fields)
}

// One record more of a file. Of the `number` records in front of it, the first `agreed` stand at the front of the index.
pub fn agree(index: &[u8], width: usize, agreed: usize, number: usize, entry: IndexRecord) -> usize
    requires { Width width × (number ≤ length_limit) }
    ensures { Agrees index.now width agreed number entry result }
{
    if agreed != number {
        return agreed;
    }
    if record_is(index, agreed * (4 * width), width, entry) {
        return agreed + 1;
    }
    agreed
}

// Not by `to_le_bytes`, which has eight bytes: a number may have any width here.
fn put_number(out: &mut [u8], at: usize, width: usize, n: usize)
    requires { at + width ≤ length out.old }
    ensures { out.new ≡ sets out.old at (le width n) }
{
    let mut rest = n;
    for i in 0..width {
        out[at + i] = (rest % 256) as u8;
        rest = rest / 256;
    }
}

pub fn put_record(out: &mut [u8], at: usize, width: usize, entry: IndexRecord)
    requires { Width width × (at + 4 * width ≤ length out.old) }
    ensures { out.new ≡ take at out.old ++ (index_record_bytes width (record_is entry) ++ drop (at + 4 * width) out.old) }
{
    put_number(out, at, width, entry.offset);
    put_number(out, at + width, width, entry.size);
    put_number(out, at + 2 * width, width, entry.prototype);
    put_number(out, at + 3 * width, width, entry.fields);
}
