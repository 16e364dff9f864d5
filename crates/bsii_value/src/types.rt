// The table of types.
ghost use Rattle.std.specs.Prelude.{◌≡◌, ◌*◌};
ghost use Rattle.bsii_format.specs.Types.{shape_of, width as width_of, arity as arityOf};
ghost use Rattle.bsii_value.specs.Kinds.{numeric_is, shape_is};

// Values that are one or more numbers of one width.
#[derive(Clone, Copy)]
pub enum Numeric {
    Float,
    FloatVec2,
    FloatVec3,
    FloatVec4,
    FloatVec7,
    FloatVec8,
    Int32,
    Int32Vec3,
    UInt32,
    UInt16,
    Int64,
    UInt64,
    Bool,
    Enum,
}

// What one element is.
#[derive(Clone, Copy)]
pub enum Kind {
    Numbers(Numeric),
    String,
    EncodedString,
    Id,
}

// A single element, or an array of them.
#[derive(Clone, Copy)]
pub enum Shape {
    One(Kind),
    Many(Kind),
}

// The table of types, row by row. A type that is not there, an unlisted one, has no length that could be guessed. Version 1 has two rows of its own, ahead of
// the others: so each row is a constant, and the rows are compiled to a table and not to jumps. All of it is compiled into its callers: as a call it hands on
// its four tags through memory, and a reading of values of a few bytes takes 1.3 times as long.
#[tactic(auto, unfolding(bsii_format::specs::Types::shape_of, bsii_format::specs::Types::shape_in, bsii_format::specs::Types::type_table, bsii_format::specs::Types::placement_in))]
#[inline(always)]
pub fn shape_of(version: u32, type_id: u32) -> Option<Shape>
    ensures { shape_is result ≡ shape_of version type_id }
{
    if version == 1 {
        match type_id {
            0x19 => return Some(Shape::One(Kind::Numbers(Numeric::FloatVec7))),
            0x1a => return Some(Shape::Many(Kind::Numbers(Numeric::FloatVec7))),
            _ => {}
        }
    }
    match type_id {
        0x01 => Some(Shape::One(Kind::String)),
        0x02 => Some(Shape::Many(Kind::String)),
        0x03 => Some(Shape::One(Kind::EncodedString)),
        0x04 => Some(Shape::Many(Kind::EncodedString)),
        0x05 => Some(Shape::One(Kind::Numbers(Numeric::Float))),
        0x06 => Some(Shape::Many(Kind::Numbers(Numeric::Float))),
        0x07 => Some(Shape::One(Kind::Numbers(Numeric::FloatVec2))),
        0x09 => Some(Shape::One(Kind::Numbers(Numeric::FloatVec3))),
        0x0a => Some(Shape::Many(Kind::Numbers(Numeric::FloatVec3))),
        0x11 => Some(Shape::One(Kind::Numbers(Numeric::Int32Vec3))),
        0x12 => Some(Shape::Many(Kind::Numbers(Numeric::Int32Vec3))),
        0x17 => Some(Shape::One(Kind::Numbers(Numeric::FloatVec4))),
        0x18 => Some(Shape::Many(Kind::Numbers(Numeric::FloatVec4))),
        0x19 => Some(Shape::One(Kind::Numbers(Numeric::FloatVec8))),
        0x1a => Some(Shape::Many(Kind::Numbers(Numeric::FloatVec8))),
        0x25 => Some(Shape::One(Kind::Numbers(Numeric::Int32))),
        0x26 => Some(Shape::Many(Kind::Numbers(Numeric::Int32))),
        0x27 => Some(Shape::One(Kind::Numbers(Numeric::UInt32))),
        0x28 => Some(Shape::Many(Kind::Numbers(Numeric::UInt32))),
        0x2b => Some(Shape::One(Kind::Numbers(Numeric::UInt16))),
        0x2c => Some(Shape::Many(Kind::Numbers(Numeric::UInt16))),
        0x2f => Some(Shape::One(Kind::Numbers(Numeric::UInt32))),
        0x31 => Some(Shape::One(Kind::Numbers(Numeric::Int64))),
        0x32 => Some(Shape::Many(Kind::Numbers(Numeric::Int64))),
        0x33 => Some(Shape::One(Kind::Numbers(Numeric::UInt64))),
        0x34 => Some(Shape::Many(Kind::Numbers(Numeric::UInt64))),
        0x35 => Some(Shape::One(Kind::Numbers(Numeric::Bool))),
        0x36 => Some(Shape::Many(Kind::Numbers(Numeric::Bool))),
        0x37 => Some(Shape::One(Kind::Numbers(Numeric::Enum))),
        0x39 => Some(Shape::One(Kind::Id)),
        0x3a => Some(Shape::Many(Kind::Id)),
        0x3b => Some(Shape::One(Kind::Id)),
        0x3c => Some(Shape::Many(Kind::Id)),
        0x3d => Some(Shape::One(Kind::Id)),
        _ => None,
    }
}

// How many bytes each number has.
#[tactic(auto, unfolding(bsii_format::specs::Types::width))]
pub fn width(n: Numeric) -> u32
    ensures { result ≡ width_of (numeric_is n) }
{
    match n {
        Numeric::UInt16 => 2,
        Numeric::Int64 | Numeric::UInt64 => 8,
        Numeric::Bool => 1,
        _ => 4,
    }
}

// How many numbers there are.
#[tactic(auto, unfolding(bsii_format::specs::Types::arity))]
pub fn arity(n: Numeric) -> u32
    ensures { result ≡ arityOf (numeric_is n) }
{
    match n {
        Numeric::FloatVec2 => 2,
        Numeric::FloatVec3 | Numeric::Int32Vec3 => 3,
        Numeric::FloatVec4 => 4,
        Numeric::FloatVec7 => 7,
        Numeric::FloatVec8 => 8,
        _ => 1,
    }
}

// How many bytes they have together, as a row of its own: a value is passed by one match.
#[tactic(auto, unfolding(bsii_format::specs::Types::arity, bsii_format::specs::Types::width))]
pub fn byte_count(n: Numeric) -> usize
    ensures { result ≡ arityOf (numeric_is n) * width_of (numeric_is n) }
{
    match n {
        Numeric::Bool => 1,
        Numeric::UInt16 => 2,
        Numeric::Int64 | Numeric::UInt64 | Numeric::FloatVec2 => 8,
        Numeric::FloatVec3 | Numeric::Int32Vec3 => 12,
        Numeric::FloatVec4 => 16,
        Numeric::FloatVec7 => 28,
        Numeric::FloatVec8 => 32,
        _ => 4,
    }
}
