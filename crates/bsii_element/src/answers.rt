// What the element call answers.
use bsii_float::floats::{Placement, Vec2, Vec3, Vec4, Vec7};

// Three fields and no array: what copies them names each, which is no plainer by index.
#[derive(Drop)]
pub struct Int3 {
    pub a: i32,
    pub b: i32,
    pub c: i32,
}

// One case for each kind of value. A string's place is that of its bytes, without their length; an id's place is that
// of all of its bytes. specs/Cases says what each case means.
#[derive(Drop)]
pub enum Element {
    String { offset: usize, size: usize },
    EncodedString(u64),
    Float(f32),
    FloatVec2(Vec2),
    FloatVec3(Vec3),
    FloatVec4(Vec4),
    FloatVec7(Vec7),
    FloatVec8(Placement),
    Int32(i32),
    Int32Vec3(Int3),
    UInt32(u32),
    UInt16(u16),
    Int64(i64),
    UInt64(u64),
    Bool(bool),
    Enum(u32),
    Id { offset: usize, size: usize },
}
