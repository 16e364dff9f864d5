// Two lists of definitions side by side: those in force and the last ones of the same prototype id.
ghost use Rattle.bsii_definition.specs.Pairs.{PairOf, SameCount};

use bsii_prototype::accepted::accepted_at;

// Where a definition stands: its type, and its name's bytes from name to name_end, behind which an enum list follows.
#[derive(Clone, Copy)]
pub struct Definition {
    pub type_id: u32,
    pub name: usize,
    pub name_end: usize,
}

// The type in force with the last definition, and where the two lists go on; or both lists end here; or one does.
#[derive(Drop)]
pub enum Pair {
    Both {
        type_id: u32,
        last: Definition,
        next: usize,
        last_next: usize,
    },
    Ends,
    Uneven,
}

// One list stands for both, which is so for every id that is defined once.
fn same_pair(s: &[u8], field: usize) -> Pair
    ensures { PairOf s.now field field result }
{
    let Some(found) = accepted_at(s, field) else {
        return Pair::Ends;
    };
    Pair::Both {
        type_id: found.type_id,
        last: Definition {
            type_id: found.type_id,
            name: field + 8,
            name_end: found.name_end,
        },
        next: found.next,
        last_next: found.next,
    }
}

// Two lists, each read for itself.
fn unlike_pair(s: &[u8], field: usize, last_field: usize) -> Pair
    ensures { PairOf s.now field last_field result }
{
    match (accepted_at(s, field), accepted_at(s, last_field)) {
        (Some(found), Some(last)) => Pair::Both {
            type_id: found.type_id,
            last: Definition {
                type_id: last.type_id,
                name: last_field + 8,
                name_end: last.name_end,
            },
            next: found.next,
            last_next: last.next,
        },
        (None, None) => Pair::Ends,
        (None, Some(_)) => Pair::Uneven,
        (Some(_), None) => Pair::Uneven,
    }
}

pub fn pair_at(s: &[u8], field: usize, last_field: usize) -> Pair
    ensures { PairOf s.now field last_field result }
{
    if field == last_field {
        return same_pair(s, field);
    }
    unlike_pair(s, field, last_field)
}

// Whether both lists have the same number of definitions.
pub fn same_count(s: &[u8], fields: usize, last_fields: usize) -> bool
    ensures { SameCount s.now fields last_fields result }
{
    let mut field = fields;
    let mut last_field = last_fields;
    loop {
        match unlike_pair(s, field, last_field) {
            Pair::Ends => return true,
            Pair::Uneven => return false,
            Pair::Both {
                next,
                last_next,
                ..
            } => {
                field = next;
                last_field = last_next;
            }
        }
    }
}
