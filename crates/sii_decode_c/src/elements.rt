// The element call. Floats go as their bits, all NaN as one; signed numbers as their two's complement.
ghost use Rattle.std.specs.Prelude.{◌≡◌};
ghost use Rattle.bsii_format.specs.Calls.{element_call};
ghost use Rattle.bsii_string.specs.Answers.{fault_is};
ghost use Rattle.bsii_element.specs.Cases.{coordinate, datum_is, element_is};
ghost use Rattle.sii_decode_c.specs.Elements.{twos64, word, place_out, value_out, words_out, refused_out, datum_out, element_out};

use bsii_element::answers::Element;
use bsii_element::elements::element;
use bsii_float::floats::{Placement, Vec7, bits_of};
use bsii_string::answers::Refusal;

#[repr(C)]
#[derive(Drop)]
pub struct SiiElement {
    pub number: u32,
    pub offset: u64,
    pub lacking: u64,
    pub kind: u32,
    pub place_offset: u64,
    pub place_len: u64,
    pub value: u64,
    pub a: u32,
    pub b: u32,
    pub c: u32,
    pub d: u32,
    pub e: u32,
    pub f: u32,
    pub g: u32,
    pub h: u32,
}

// An answer of no kind: each case sets its own fields.
const EMPTY: SiiElement = SiiElement {
    number: 0,
    offset: 0,
    lacking: 0,
    kind: 0,
    place_offset: 0,
    place_len: 0,
    value: 0,
    a: 0,
    b: 0,
    c: 0,
    d: 0,
    e: 0,
    f: 0,
    g: 0,
    h: 0,
};

fn bits(x: f32) -> u32
    ensures { result ≡ word x }
{
    bits_of(x, 0x7fc0_0000)
}

fn number(kind: u32, value: u64) -> SiiElement
    ensures { result ≡ value_out kind value }
{
    SiiElement {
        kind,
        value,
        ..EMPTY
    }
}

fn place(kind: u32, offset: usize, size: usize) -> SiiElement
    ensures { result ≡ place_out kind offset size }
{
    SiiElement {
        kind,
        place_offset: offset as u64,
        place_len: size as u64,
        ..EMPTY
    }
}

fn refused(f: Refusal) -> SiiElement
    ensures { result ≡ refused_out (fault_is f) }
{
    SiiElement {
        number: f.cause.into(),
        offset: f.offset as u64,
        lacking: u64::from(f.lacking),
        ..EMPTY
    }
}

fn words(kind: u32, a: u32, b: u32, c: u32, d: u32) -> SiiElement
    ensures { result ≡ words_out kind a b c d 0 0 0 0 }
{
    SiiElement {
        kind,
        a,
        b,
        c,
        d,
        ..EMPTY
    }
}

fn seven(v: Vec7) -> SiiElement
    ensures { result ≡ words_out 17 (word (coordinate v 0)) (word (coordinate v 1)) (word (coordinate v 2)) (word (coordinate v 3)) (word (coordinate v 4)) (word (coordinate v 5)) (word (coordinate v 6)) 0 }
{
    SiiElement {
        kind: 17,
        a: bits(v.items[0]),
        b: bits(v.items[1]),
        c: bits(v.items[2]),
        d: bits(v.items[3]),
        e: bits(v.items[4]),
        f: bits(v.items[5]),
        g: bits(v.items[6]),
        ..EMPTY
    }
}

fn placement(p: Placement) -> SiiElement
    ensures { result ≡ words_out 8 (word (coordinate p 0)) (word (coordinate p 1)) (word (coordinate p 2)) (word (coordinate p 3)) (word (coordinate p 4)) (word (coordinate p 5)) (word (coordinate p 6)) (word (coordinate p 7)) }
{
    SiiElement {
        kind: 8,
        a: bits(p.items[0]),
        b: bits(p.items[1]),
        c: bits(p.items[2]),
        d: bits(p.items[3]),
        e: bits(p.items[4]),
        f: bits(p.items[5]),
        g: bits(p.items[6]),
        h: bits(p.items[7]),
        ..EMPTY
    }
}

// An i32 as an i64.
fn extended(n: i32) -> u64
    ensures { result ≡ twos64 n }
{
    i64::from(n).cast_unsigned()
}

// One struct of C for all seventeen kinds, so a match that fills it.
fn copied(answer: Element) -> SiiElement
    ensures { result ≡ datum_out (datum_is answer) }
{
    match answer {
        Element::String { offset, size } => place(1, offset, size),
        Element::EncodedString(w) => number(2, w),
        Element::Float(x) => words(3, bits(x), 0, 0, 0),
        Element::FloatVec2(v) => words(4, bits(v.items[0]), bits(v.items[1]), 0, 0),
        Element::FloatVec3(v) => words(5, bits(v.items[0]), bits(v.items[1]), bits(v.items[2]), 0),
        Element::FloatVec4(v) => words(
            7,
            bits(v.items[0]),
            bits(v.items[1]),
            bits(v.items[2]),
            bits(v.items[3]),
        ),
        Element::FloatVec7(v) => seven(v),
        Element::FloatVec8(p) => placement(p),
        Element::Int32(n) => number(9, extended(n)),
        Element::Int32Vec3(v) => words(
            6,
            v.a.cast_unsigned(),
            v.b.cast_unsigned(),
            v.c.cast_unsigned(),
            0,
        ),
        Element::UInt32(n) => number(10, u64::from(n)),
        Element::UInt16(n) => number(11, u64::from(n)),
        Element::Int64(n) => number(12, n.cast_unsigned()),
        Element::UInt64(n) => number(13, n),
        Element::Bool(b) => number(14, u64::from(b)),
        Element::Enum(n) => number(15, u64::from(n)),
        Element::Id { offset, size } => place(16, offset, size),
    }
}

impl From<Result<Element, Refusal>> for SiiElement {
    ghost from_gives = { λ answer out. out ≡ element_out (element_is answer) };

    fn from(answer: Result<Element, Refusal>) -> SiiElement {
        match answer {
            Ok(e) => copied(e),
            Err(f) => refused(f),
        }
    }
}

#[unsafe(no_mangle)]
pub extern "C" fn sii_element_of(version: u32, type_id: u32, part: &[u8], index: u64) -> SiiElement
    ensures { result ≡ element_out (element_call version type_id part.now index) }
{
    element(version, type_id, part, index as usize).into()
}
