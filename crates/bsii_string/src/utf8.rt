// UTF-8, one byte after the other.
ghost use Rattle.std.specs.Prelude.{◌≡◌, ◌≤◌, cond, length, drop};
ghost use Rattle.std.proofs.Math.Option.{none};
ghost use Rattle.bsii_format.specs.Utf8.{◌to◌, within, table3_7, trail_of, step as step_of, complete as completeOf, utf8};
ghost use Rattle.bsii_string.specs.States.{to_come};

// What is still to come of a sequence: nothing, one to three bytes, or what follows one of the four lead bytes that narrow the next byte.
#[derive(Drop)]
pub enum State {
    Between,
    One,
    Two,
    Three,
    AfterE0,
    AfterEd,
    AfterF0,
    AfterF4,
    Broken,
}

// The first byte of a sequence: table 3-7, by its lead bytes' bounds.
fn lead(byte: u8) -> State
    ensures { to_come result ≡ trail_of table3_7 byte }
{
    if byte < 0x80 {
        return State::Between;
    }
    if byte < 0xc2 {
        return State::Broken;
    }
    if byte < 0xe0 {
        return State::One;
    }
    if byte < 0xe1 {
        return State::AfterE0;
    }
    if byte < 0xed {
        return State::Two;
    }
    if byte < 0xee {
        return State::AfterEd;
    }
    if byte < 0xf0 {
        return State::Two;
    }
    if byte < 0xf1 {
        return State::AfterF0;
    }
    if byte < 0xf4 {
        return State::Three;
    }
    if byte < 0xf5 {
        return State::AfterF4;
    }
    State::Broken
}

// A later byte of a sequence.
fn trail(byte: u8, low: u8, high: u8, next: State) -> State
    ensures { to_come result ≡ cond (within (low to high) byte) (to_come next) none }
{
    if byte < low {
        return State::Broken;
    }
    if high < byte {
        return State::Broken;
    }
    next
}

fn step(state: State, byte: u8) -> State
    ensures { to_come result ≡ step_of (to_come state) byte }
{
    match state {
        State::Between => lead(byte),
        State::One => trail(byte, 0x80, 0xbf, State::Between),
        State::Two => trail(byte, 0x80, 0xbf, State::One),
        State::Three => trail(byte, 0x80, 0xbf, State::Two),
        State::AfterE0 => trail(byte, 0xa0, 0xbf, State::One),
        State::AfterEd => trail(byte, 0x80, 0x9f, State::One),
        State::AfterF0 => trail(byte, 0x90, 0xbf, State::Two),
        State::AfterF4 => trail(byte, 0x80, 0x8f, State::Two),
        State::Broken => State::Broken,
    }
}

// Whether the bytes end where a sequence ends.
fn complete(state: State) -> bool
    ensures { result ≡ completeOf (to_come state) }
{
    matches!(state, State::Between)
}

// Where the run of ASCII at the front ends: each of its bytes is a sequence, so what is left decides. Most strings are such a run.
fn ascii_end(part: &[u8]) -> usize
    ensures rest { utf8 (drop result part.now) ≡ utf8 part.now }
    ensures inside { result ≤ length part.now }
{
    part.iter()
        .position(|byte| 0x7f < *byte)
        .unwrap_or(part.len())
}

// Table 3-7 stands here in the specification's words, which edits of it hold; std's from_utf8 promises its own, so a proof that they are one would be no plainer.
pub fn is_utf8(part: &[u8]) -> bool
    ensures { result ≡ utf8 part.now }
{
    let mut state = State::Between;
    for byte in &part[ascii_end(part)..] {
        state = step(state, *byte);
    }
    complete(state)
}
