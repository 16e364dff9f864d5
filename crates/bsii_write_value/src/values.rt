// The value of a field, or an element of its array, on a line of its own.
ghost use Rattle.bsii_format.specs.Types.{enum, numbers, string, encoded_string, id};
ghost use Rattle.bsii_value.specs.Kinds.{numeric_is};
ghost use Rattle.bsii_definition.specs.Pairs.{InFile};
ghost use Rattle.bsii_write_value.specs.Lines.{EnumTextOf, ElementWritten};

use bsii_base38::CharPairs;
use bsii_definition::enums::enum_string;
use bsii_definition::pairs::Definition;
use bsii_line::lines::{id_line, number_line, text_line, word_line};
use bsii_opening::openings::Label;
use bsii_skip::skip_id;
use bsii_string::answers::Text;
use bsii_string::numbers::{le_u32, le_u64};
use bsii_string::strings::skip_str;
use bsii_value::types::Numeric;
use bsii_value::values::numeric_end;

// The offset behind what was written, and the position behind its text. There are none for an enum value that is not in its list, and for bytes that were
// never accepted where they run out. What was written in front of it stays in the window: the caller measures first.
#[derive(Clone, Copy)]
pub struct Lines {
    pub at: usize,
    pub to: usize,
}

// The string that the last definition's list gives to the enum value at an offset.
pub fn enum_text(s: &[u8], at: usize, d: Definition) -> Option<Text>
    ensures { EnumTextOf s.now at d result }
{
    let Ok((n, _)) = le_u32(s, at) else {
        return None;
    };
    enum_string(s, d.name_end, d.type_id, n)
}

// No listed type is an array of enum values; what is written of an element is said of every kind.
fn write_enum<L: Label>(
    out: &mut [u8],
    to: usize,
    s: &[u8],
    at: usize,
    d: Definition,
    label: L,
) -> Option<Lines>
    requires { InFile s.now d }
    ensures { ElementWritten s.now at (numbers enum) d (L.of label) out.old to result out.new }
{
    let text = enum_text(s, at, d)?;
    let name = &s[d.name..d.name_end];
    let next = at + 4;
    Some(Lines {
        at: next,
        to: text_line(out, to, label, name, &s[text.start..text.next]),
    })
}

#[tactic(auto, using(crate::proofs::LineLaws::numeric_moves))]
pub fn write_number<L: Label>(
    out: &mut [u8],
    to: usize,
    s: &[u8],
    at: usize,
    n: Numeric,
    d: Definition,
    label: L,
) -> Option<Lines>
    requires { InFile s.now d }
    ensures { ElementWritten s.now at (numbers (numeric_is n)) d (L.of label) out.old to result out.new }
{
    if let Numeric::Enum = n {
        return write_enum(out, to, s, at, d, label);
    }
    let Ok(next) = numeric_end(s, at, n) else {
        return None;
    };
    let name = &s[d.name..d.name_end];
    Some(Lines {
        at: next,
        to: number_line(out, to, label, name, &s[at..next], n),
    })
}

// A string's bytes stand behind their u32 length.
#[tactic(auto, using(crate::proofs::ValueLaws::string_room))]
pub fn write_string_value<L: Label>(
    out: &mut [u8],
    to: usize,
    s: &[u8],
    at: usize,
    d: Definition,
    label: L,
) -> Option<Lines>
    requires { InFile s.now d }
    ensures { ElementWritten s.now at string d (L.of label) out.old to result out.new }
{
    let Ok(next) = skip_str(s, at) else {
        return None;
    };
    let name = &s[d.name..d.name_end];
    Some(Lines {
        at: next,
        to: text_line(out, to, label, name, &s[at + 4..next]),
    })
}

// A word is the low 63 bits.
pub fn write_word<L: Label>(
    chars: &CharPairs,
    out: &mut [u8],
    to: usize,
    s: &[u8],
    at: usize,
    d: Definition,
    label: L,
) -> Option<Lines>
    requires { InFile s.now d }
    ensures { ElementWritten s.now at encoded_string d (L.of label) out.old to result out.new }
{
    let Ok((n, next)) = le_u64(s, at) else {
        return None;
    };
    let name = &s[d.name..d.name_end];
    Some(Lines {
        at: next,
        to: word_line(chars, out, to, label, name, n % 0x8000_0000_0000_0000),
    })
}

#[tactic(auto, using(crate::proofs::LineLaws::id_moves))]
pub fn write_id_value<L: Label>(
    chars: &CharPairs,
    out: &mut [u8],
    to: usize,
    s: &[u8],
    at: usize,
    d: Definition,
    label: L,
) -> Option<Lines>
    requires { InFile s.now d }
    ensures { ElementWritten s.now at id d (L.of label) out.old to result out.new }
{
    let Ok(next) = skip_id(s, at) else {
        return None;
    };
    let name = &s[d.name..d.name_end];
    Some(Lines {
        at: next,
        to: id_line(chars, out, to, label, name, &s[at..next]),
    })
}
