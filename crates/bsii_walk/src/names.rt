// Names of prototypes.
ghost use Rattle.bsii_walk.specs.Again.{NameIs};

use bsii_prototype::answers::NAME;
use bsii_prototype::skip::fields_at;

// Whether the prototype at the offset has this name, which stands behind a u32 zero, the byte 1, the u32 id and its u32 length.
pub fn name_is(s: &[u8], offset: usize, name: &[u8]) -> bool
    ensures { NameIs s.now offset name.now result }
{
    let Ok(end) = fields_at(s, offset) else {
        return false;
    };
    let start = offset + NAME;
    &s[start..end] == name
}
