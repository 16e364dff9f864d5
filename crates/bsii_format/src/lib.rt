#![tactic(auto)]

// The format, the calls and the text as definitions: specs/ holds them, proofs/ their laws. The code is the one type of which the definitions speak.

// Why a call refuses, with the numbers of include/sii_decode.h. No refusal has another number.
#[derive(Clone, Copy, PartialEq, Eq, Debug)]
pub enum Cause {
    InvalidHeader = 1,
    // 2 is retired.
    Malformed = 3,
    NotUtf8 = 4,
    ZeroDigit = 5,
    UndefinedPrototype = 6,
    UnlistedType = 7,
    FieldCount = 8,
    EnumValue = 9,
    TableFull = 10,
    OutputShort = 11,
    InputLong = 12,
    Absent = 13,
    Misfit = 14,
    BadMark = 15,
}

impl From<Cause> for u32 {
    ghost use Rattle.std.specs.Prelude.{◌≡◌};
    ghost use Rattle.bsii_format.specs.Replies.{number_of};

    ghost from_gives = { λ cause number. number ≡ number_of cause };

    fn from(cause: Cause) -> u32 {
        cause as u32
    }
}
