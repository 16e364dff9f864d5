// A field of a block: its position by name among a prototype's definitions, and the value at a position.
//
// Definitions and values were accepted before, so nothing is checked again. Each function takes the whole file and positions, any
// positions, and answers for every input; its contract says what the answer means where the format's readers accept.
#![tactic(auto)]

ghost use Rattle.bsii_field.specs.Answers.{IndexOf, ValueAt};

use bsii_prototype::accepted::accepted_at;
use bsii_skip::skip_value;

// A value's type, and its bytes from at to next.
#[derive(Clone, Copy)]
pub struct Value {
    pub type_id: u32,
    pub at: usize,
    pub next: usize,
}

// The position, from 0, of the first definition of that name, of those from `fields` on. A definition's name starts behind its type and its length.
// Counted by hand, as below: a range is no plainer, since no count stands in front of the definitions to end it.
#[tactic(auto, using(bsii_prototype::proofs::Inside::field_inside))]
pub fn field_index(s: &[u8], fields: usize, name: &[u8]) -> Option<usize>
    ensures { IndexOf s.now fields name.now result }
{
    let mut field = fields;
    let mut index: usize = 0;
    // A rule of the project, docs/SCOPE.md: 01 asks for a loop over the name's bytes that is left by a label at a mismatch.
    'definitions: while let Some(found) = accepted_at(s, field) {
        let start = field + 8;
        let here = index;
        field = found.next;
        index += 1;
        if found.name_end - start != name.len() {
            continue 'definitions;
        }
        for i in 0..name.len() {
            if s[start + i] != name[i] {
                continue 'definitions;
            }
        }
        return Some(here);
    }
    None
}

// The value at a position, of those from `start` on that stand under the definitions from `fields` on.
// A walk of its own beside bsii_block's: shared with the reading walk, blocks of few bytes took up to 2.5 times as long to read.
#[tactic(auto, using(bsii_prototype::proofs::Inside::field_inside, crate::proofs::Values::go_on))]
pub fn value_at(s: &[u8], version: u32, fields: usize, start: usize, index: usize) -> Option<Value>
    ensures { ValueAt version s.now fields start index result }
{
    let mut field = fields;
    let mut at = start;
    let mut passed: usize = 0;
    while let Some(found) = accepted_at(s, field) {
        let type_id = found.type_id;
        let Ok(next) = skip_value(s, at, version, type_id) else {
            return None;
        };
        if passed == index {
            return Some(Value { type_id, at, next });
        }
        at = next;
        field = found.next;
        passed += 1;
    }
    None
}
