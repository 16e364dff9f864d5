// The scratch table that a caller lends, once a file is read: three words for each prototype id, (id, offset of the definition in force,
// offset of the last definition); a file's offsets fit in words, by the length limit. A zero id is a valid id, so the number of rows is
// carried beside the table. A second walk over the file enters each definition again as it meets it.
//
// The rows stand in the order of their ids: a look-up tries the row where ids that are spread evenly would have it, then halves the rows
// that are left with each id it reads.
//
// `find` and `enter` require `Rows`, that the rows are in the table and in that order: callers have it from the relation to the
// definitions so far that they carry anyway. A struct of table and rows would be no plainer: callers lend the one table to the tree, to the
// sort and to this crate in turn, and carry the number of rows in a struct of their own.
#![tactic(auto)]

ghost use Rattle.std.specs.Prelude.{◌<◌, ◌≤◌, ◌≡◌, length, replicate};
ghost use Rattle.bsii_table.specs.Rows.{Rows, lookup};
ghost use Rattle.bsii_table.specs.Table.{found_row, Locate, Enters};

// The offsets of an id's definition in force and of its last one.
#[derive(Clone, Copy)]
pub struct Row {
    pub in_force: u32,
    pub last: u32,
}

// Where the id would stand if the ids were spread evenly from the first to the last. Only a guess: any row will do.
fn interpolated_row(table: &[u32], rows: usize, id: u32) -> usize
    requires { Rows table.now rows × (0 < rows) }
    ensures { result < rows }
{
    let first = table[0];
    let last = table[3 * (rows - 1)];
    if id <= first {
        return 0;
    }
    if last <= id {
        return rows - 1;
    }
    let ahead = (id - first) as usize;
    let spread = (last - first) as usize;
    // The product fits: there are no more rows than ids.
    ahead * (rows - 1) / spread
}

// Where the row of an id starts, if it has one.
fn binary_search(table: &[u32], rows: usize, id: u32) -> Option<usize>
    requires { Rows table.now rows }
    ensures { Locate table.now rows id result }
{
    let mut low = 0;
    let mut high = rows;
    while low < high {
        let middle = low + (high - low) / 2;
        let held = table[3 * middle];
        if held == id {
            return Some(3 * middle);
        }
        if held < id {
            low = middle + 1;
        } else {
            high = middle;
        }
    }
    None
}

fn locate(table: &[u32], rows: usize, id: u32) -> Option<usize>
    requires { Rows table.now rows }
    ensures { Locate table.now rows id result }
{
    if 0 < rows {
        let row = interpolated_row(table, rows, id);
        if table[3 * row] == id {
            return Some(3 * row);
        }
    }
    binary_search(table, rows, id)
}

// The offsets of an id.
pub fn find(table: &[u32], rows: usize, id: u32) -> Option<Row>
    requires { Rows table.now rows }
    ensures { found_row result ≡ lookup table.now rows id }
{
    let at = locate(table, rows, id)?;
    Some(Row {
        in_force: table[at + 1],
        last: table[at + 2],
    })
}

// The definition of the id at the offset is in force from here on; which one is the last stays.
pub fn enter(table: &mut [u32], rows: usize, id: u32, offset: u32)
    requires { Rows table.old rows }
    ensures { Enters table.old rows id offset table.new }
{
    if let Some(at) = locate(table, rows, id) {
        table[at + 1] = offset;
    }
}

// Every word is zero, also those behind the rows.
pub fn clear(table: &mut [u32])
    ensures { table.new ≡ replicate (length table.old) 0 }
{
    table.fill(0);
}
