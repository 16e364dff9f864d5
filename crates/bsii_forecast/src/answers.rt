// What is foreseen of a file, and what the forecast answers.
// What the walks over a file have found: its version, the distinct prototype ids, the blocks, the text's length, the bytes of the largest block, and the steps.
#[derive(Clone, Copy)]
pub struct Figures {
    pub version: u32,
    pub rows: usize,
    pub blocks: usize,
    pub text: usize,
    pub largest: usize,
    pub steps: usize,
}

// What a file will need: the words of the table, the bytes of its text and of its index, those of its largest block, and the steps of a walk.
#[derive(Clone, Copy)]
pub struct Forecast {
    pub table_words: usize,
    pub text_length: usize,
    pub index_length: usize,
    pub largest_block: usize,
    pub steps: usize,
}
