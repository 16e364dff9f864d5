// Field definitions, by any way to pass their strings.
ghost use Rattle.std.specs.Prelude.{◌≡◌, ◌+◌, drop};
ghost use Rattle.bsii_format.specs.Prototypes.{EnumValue as EnumValueRead, fields_parser};
ghost use Rattle.bsii_string.specs.Answers.{end_of};
ghost use Rattle.bsii_prototype.specs.Entries.{enum_value_with, enum_values_with, definition_with, entry_with, fields_with};
ghost use Rattle.bsii_prototype.specs.Strings.{pair_exact};
ghost use Rattle.bsii_prototype.specs.Answers.{entry_of, count_of};

use crate::answers::{Counted, Entry};
use crate::strings::{Checked, Strings};
use bsii_string::answers::Refusal;
use bsii_string::numbers::le_u32;
use bsii_string::rows::{Item, row_end};
use std::marker::PhantomData;

pub fn enum_value_with<S: Strings>(s: &[u8], at: usize) -> Result<usize, Refusal>
    ensures { result ≡ end_of (enum_value_with S.reader at (drop at s.now)) }
{
    let (_, next) = le_u32(s, at)?;
    S::end(s, next)
}

// A pair of an enum list.
#[derive(Drop)]
struct EnumValue<S>(PhantomData<S>);

impl<S: Strings> Item for EnumValue<S> {
    ghost value = { EnumValueRead };

    ghost reader = { λ _. enum_value_with S.reader };

    ghost exact = { λ _. pair_exact S.text.exact };

    fn end(&self, s: &[u8], at: usize) -> Result<usize, Refusal> {
        enum_value_with::<S>(s, at)
    }
}

// Only type 0x37 has an enum list.
pub fn enum_values_with<S: Strings>(s: &[u8], at: usize, type_id: u32) -> Result<usize, Refusal>
    ensures { result ≡ end_of (enum_values_with S.reader type_id at (drop at s.now)) }
{
    if type_id != 0x37 {
        return Ok(at);
    }
    let (n, next) = le_u32(s, at)?;
    row_end(&EnumValue::<S>(PhantomData), s, next, n)
}

// What follows a definition's type. The name's bytes start behind its u32 length.
fn definition_with<S: Strings>(s: &[u8], at: usize, type_id: u32) -> Result<Entry, Refusal>
    ensures { result ≡ entry_of (at + 4) (definition_with S.reader type_id at (drop at s.now)) }
{
    let name_end = S::end(s, at)?;
    let next = enum_values_with::<S>(s, name_end, type_id)?;
    Ok(Entry::Field {
        type_id,
        name: at + 4,
        name_end,
        next,
    })
}

pub fn entry_with<S: Strings>(s: &[u8], at: usize) -> Result<Entry, Refusal>
    ensures { result ≡ entry_of (at + 8) (entry_with S.reader at (drop at s.now)) }
{
    let (type_id, next) = le_u32(s, at)?;
    if type_id == 0 {
        return Ok(Entry::Last(next));
    }
    definition_with::<S>(s, next, type_id)
}

// Each definition has a byte at least, so the count stays below the position.
pub fn fields_with<S: Strings>(s: &[u8], start: usize) -> Result<Counted, Refusal>
    ensures { result ≡ count_of (fields_with S.reader start (drop start s.now)) }
{
    let mut count: usize = 0;
    let mut at = start;
    loop {
        match entry_with::<S>(s, at)? {
            Entry::Field {
                type_id: _,
                name: _,
                name_end: _,
                next,
            } => {
                at = next;
                count += 1;
            }
            Entry::Last(next) => return Ok(Counted { count, next }),
        }
    }
}

// Each name is checked.
pub fn fields_parser(s: &[u8], start: usize) -> Result<Counted, Refusal>
    ensures { result ≡ count_of (fields_parser start (drop start s.now)) }
{
    fields_with::<Checked>(s, start)
}
