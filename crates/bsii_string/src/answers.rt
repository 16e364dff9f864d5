// What the readers answer: the value and the position after it, or a refusal. specs/Answers says what each case means.
ghost use Rattle.std.specs.Prelude.{◌≡◌, ◌-◌, ◌<◌};
ghost use Rattle.bsii_string.specs.Answers.{refused_at, short_by};

use bsii_format::Cause;

// Why and where a file is refused, and where bytes ran out how many are lacking: of one item, so at most a string's u32 length. What hands a refusal on names
// none of its fields; specs/Answers says what they mean.
#[derive(Drop)]
pub struct Refusal {
    pub lacking: u32,
    pub cause: Cause,
    pub offset: usize,
}

// Every refusal but that of bytes that ran out.
pub fn refused(cause: Cause, offset: usize) -> Refusal
    ensures { result ≡ refused_at cause offset }
{
    Refusal {
        lacking: 0,
        cause,
        offset,
    }
}

// Of the bytes of the item that starts at the offset, fewer are there.
pub fn short(offset: usize, item: u32, there: usize) -> Refusal
    requires { there < item }
    ensures { result ≡ short_by offset (item - there) }
{
    Refusal {
        lacking: item - (there as u32),
        cause: Cause::Malformed,
        offset,
    }
}

// The most bytes that a file may have.
pub const LENGTH_LIMIT: usize = 16_777_216;

// What a reader answers: the value and the position after it, or the refusal.
pub type Read<T> = Result<(T, usize), Refusal>;

// A string's bytes lie from start to next.
#[derive(Clone, Copy)]
pub struct Text {
    pub start: usize,
    pub next: usize,
}

// What a call that writes refuses: with the length that it needs where the room is too short, else 0.
#[derive(Drop)]
pub struct Unwritten {
    pub refusal: Refusal,
    pub needed: usize,
}

impl From<Refusal> for Unwritten {
    ghost from_gives = { λ f r. r ≡ record { refusal = f; needed = 0 } };

    fn from(refusal: Refusal) -> Unwritten {
        Unwritten { refusal, needed: 0 }
    }
}
