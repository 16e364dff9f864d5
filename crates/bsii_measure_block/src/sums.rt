// The sum that the walk carries.
ghost use Rattle.std.specs.Prelude.{◌≡◌};
ghost use Rattle.bsii_measure_block.specs.Sums.{first_missing};

// The length of the text so far, and the offset of its first enum value that is not in its list.
#[derive(Clone, Copy)]
pub struct Sum {
    pub to: usize,
    pub missing: Option<usize>,
}

// The position behind a value that was read, and the sum with its text.
#[derive(Clone, Copy)]
pub struct Summed {
    pub at: usize,
    pub sum: Sum,
}

// The same of a block's values, and how many there are.
#[derive(Clone, Copy)]
pub struct SummedBlock {
    pub at: usize,
    pub sum: Sum,
    pub values: usize,
}

// With an enum value at an offset that is not in its list: the first one stays.
pub fn with_missing(sum: Sum, at: usize) -> Sum
    ensures { result ≡ first_missing sum at }
{
    Sum {
        missing: sum.missing.or(Some(at)),
        ..sum
    }
}
