// What the field calls answer.
ghost use Rattle.std.specs.Prelude.{◌≡◌, ◌+◌, ◌≤◌, length, take, drop};

// The type and the place of the value's bytes.
#[derive(Clone, Copy)]
pub struct Field {
    pub type_id: u32,
    pub part: usize,
    pub part_size: usize,
}

impl Field {
    pub fn bytes<'a>(&self, file: &'a [u8]) -> &'a [u8]
        requires { self.now.part + self.now.part_size ≤ length file.now }
        ensures { result.now ≡ take self.now.part_size (drop self.now.part file.now) }
    {
        let end = self.part + self.part_size;
        &file[self.part..end]
    }
}
