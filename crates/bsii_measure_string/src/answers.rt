// What the measuring readers answer: where what they read ends, and how long its text is.
#[derive(Clone, Copy)]
pub struct Measured {
    pub at: usize,
    pub long: usize,
}
