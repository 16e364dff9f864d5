// What the readers answer: specs/Answers says what each case means.

// How far behind a prototype's offset its name's bytes start: record number, mark, id and the name's length stand in front of them.
pub const NAME: usize = 13;

// An entry of a list of field definitions. The name's bytes lie from name to name_end, where an enum list follows.
#[derive(Drop)]
pub enum Entry {
    Field {
        type_id: u32,
        name: usize,
        name_end: usize,
        next: usize,
    },
    Last(usize),
}

// A whole list of field definitions: how many, and the position behind its end.
#[derive(Clone, Copy)]
pub struct Counted {
    pub count: usize,
    pub next: usize,
}

// How a record begins. A prototype's name lies from name to next, where its field definitions start.
#[derive(Drop)]
pub enum Head {
    End(usize),
    Prototype { id: u32, name: usize, next: usize },
    Block { id: u32, next: usize },
}
