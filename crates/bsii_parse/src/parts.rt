// How what stands behind the heads of a version's records is passed: checked, or without, in a file that was accepted. The file stays a parameter beside it,
// as with every reader: in a struct it would be no plainer, since each clause would name it through the struct.
ghost use Rattle.std.specs.Prelude.{ℕ, Bool, true, false};
ghost use Rattle.bsii_block.specs.Blocks.{KnownEnd};
ghost use Rattle.bsii_parse.specs.Walks.{KnownList};

use bsii_base38::CharPairs;
use bsii_block::{block_parser, skip_block};
use bsii_prototype::answers::Counted;
use bsii_prototype::fields::{fields_parser, fields_with};
use bsii_prototype::strings::Unchecked;
use bsii_string::answers::Refusal;

pub trait Parts {
    ghost known: { Bool };

    ghost version: { Self → ℕ };

    // The field definitions of a prototype.
    fn fields_end(&self, s: &[u8], at: usize) -> Result<Counted, Refusal>
        ensures { KnownList s.now at known result };

    // A block whose own id starts at `at`, under the prototype at the offset `prototype`.
    fn block_end(&self, s: &[u8], prototype: usize, at: usize) -> Result<Counted, Refusal>
        ensures { KnownEnd (version self.now) s.now prototype at known result };
}

#[derive(Drop)]
pub struct Checked<'a> {
    pub chars: &'a CharPairs,
    pub version: u32,
}

impl Parts for Checked<'_> {
    ghost known = { false };

    ghost version = { λ c. c.version };

    fn fields_end(&self, s: &[u8], at: usize) -> Result<Counted, Refusal> {
        fields_parser(s, at)
    }

    fn block_end(&self, s: &[u8], prototype: usize, at: usize) -> Result<Counted, Refusal> {
        block_parser(self.chars, s, self.version, prototype, at)
    }
}

// Nothing is checked again.
#[derive(Drop)]
pub struct Known {
    pub version: u32,
}

impl Parts for Known {
    ghost known = { true };

    ghost version = { λ k. k.version };

    fn fields_end(&self, s: &[u8], at: usize) -> Result<Counted, Refusal> {
        fields_with::<Unchecked>(s, at)
    }

    fn block_end(&self, s: &[u8], prototype: usize, at: usize) -> Result<Counted, Refusal> {
        skip_block(s, self.version, prototype, at)
    }
}
