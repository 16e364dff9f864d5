// The scratch table while a file is read: three words for each prototype id, (offset of its last definition so far, link for a next bit 0,
// link for 1). The rows stand in the order of their first definitions, linked as a digital search tree over the bits of the ids, the lowest
// first; row 0 is the root and a link of 0 is none. So no row moves, and a look-up takes 33 steps at most, whatever the ids
// (`lookup_steps`). There is no word for the id: it is read from the file, behind the offset.
//
// `find` and `define` require `Linked`, that the rows are in the table and such a tree: callers have it from the relation to the
// definitions so far that they carry anyway.
#![tactic(auto)]

ghost use Rattle.std.specs.Prelude.{◌+◌, ◌*◌, ◌≤◌, ◌<◌, ◌≡◌, length};
ghost use Rattle.bsii_table.specs.Table.{found_row};
ghost use Rattle.bsii_tree.specs.Table.{id_of, Linked, lookup_tree, Sought, Appended, Defines, Named};

use bsii_string::numbers::quad;
use bsii_table::Row;

// The first word of an id's row, or the word of the link to which its row belongs.
#[derive(Drop)]
enum Slot {
    Row(usize),
    Link(usize),
}

// The id of the prototype at an offset: behind its u32 zero and its mark.
pub fn id_at(file: &[u8], offset: u32) -> u32
    requires { offset + 9 ≤ length file.now }
    ensures { result ≡ id_of file.now offset }
{
    let at = offset as usize;
    quad(file, at + 5)
}

fn seek(file: &[u8], table: &[u32], rows: usize, id: u32) -> Slot
    requires { Linked file.now table.now rows × (0 < rows) }
    ensures { Sought file.now table.now rows id result }
{
    let mut row: usize = 0;
    let mut bits = id;
    // The steps that are left: only the proof reads it.
    let mut left: u32 = 33;
    loop {
        let at = 3 * row;
        if id_at(file, table[at]) == id {
            return Slot::Row(at);
        }
        let link = at + 1 + (bits % 2) as usize;
        let child = table[link];
        if child == 0 {
            return Slot::Link(link);
        }
        row = child as usize;
        bits = bits / 2;
        left -= 1;
    }
}

// The offset of an id's last definition so far, which is in force.
pub fn find(file: &[u8], table: &[u32], rows: usize, id: u32) -> Option<Row>
    requires { Linked file.now table.now rows }
    ensures { found_row result ≡ lookup_tree file.now table.now rows id }
{
    if rows == 0 {
        return None;
    }
    match seek(file, table, rows, id) {
        Slot::Row(at) => {
            let offset = table[at];
            Some(Row {
                in_force: offset,
                last: offset,
            })
        }
        Slot::Link(_) => None,
    }
}

// A row without links behind the others.
fn append_leaf(table: &mut [u32], rows: usize, offset: u32)
    requires { 3 * rows + 3 ≤ length table.old }
    ensures { Appended table.old rows offset table.new }
{
    let at = 3 * rows;
    table[at] = offset;
    table[at + 1] = 0;
    table[at + 2] = 0;
}

// A definition of the id stands at the offset. The number of rows now; none for a new id with no room for its row.
pub fn define(file: &[u8], table: &mut [u32], rows: usize, id: u32, offset: u32) -> Option<usize>
    requires { Linked file.now table.old rows × Named file.now rows id offset }
    ensures { Defines file.now table.old rows id offset result table.new }
{
    if rows == 0 {
        if table.len() < 3 {
            return None;
        }
        append_leaf(table, 0, offset);
        return Some(1);
    }
    match seek(file, table, rows, id) {
        Slot::Row(at) => {
            table[at] = offset;
            Some(rows)
        }
        Slot::Link(link) => {
            if table.len() - 3 * rows < 3 {
                return None;
            }
            append_leaf(table, rows, offset);
            table[link] = rows as u32;
            Some(rows + 1)
        }
    }
}
