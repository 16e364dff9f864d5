// Field definitions that were accepted before, for the walks that read one for each value: the answer is small, and says nothing of a fault.
ghost use Rattle.bsii_prototype.specs.Accepted.{AcceptedIs};

use crate::fields::enum_values_with;
use crate::strings::Unchecked;
use bsii_string::numbers::{quad, size};

// Its type, where its name ends, which starts eight bytes behind the definition, and where the next one starts.
#[derive(Clone, Copy)]
pub struct Accepted {
    pub type_id: u32,
    pub name_end: usize,
    pub next: usize,
}

// A definition has eight bytes at least, so with fewer there is none, and one test serves for the type and the name's length.
pub fn accepted_at(s: &[u8], at: usize) -> Option<Accepted>
    ensures { AcceptedIs s.now at result }
{
    if s.len() < 8 {
        return None;
    }
    if s.len() - 8 < at {
        return None;
    }
    let type_id = quad(s, at);
    if type_id == 0 {
        return None;
    }
    let count = size(quad(s, at + 4));
    let name_end = at + 8 + count;
    if s.len() < name_end {
        return None;
    }
    if type_id != 0x37 {
        return Some(Accepted {
            type_id,
            name_end,
            next: name_end,
        });
    }
    let Ok(next) = enum_values_with::<Unchecked>(s, name_end, 0x37) else {
        return None;
    };
    Some(Accepted {
        type_id,
        name_end,
        next,
    })
}
