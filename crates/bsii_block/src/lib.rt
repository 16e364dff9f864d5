// Data blocks under a prototype's definitions: where they end, and how many values they have. The definitions were read before: their names are not
// checked again.
#![tactic(auto)]

ghost use Rattle.std.specs.Prelude.{◌≡◌, ℕ, drop};
ghost use Rattle.bsii_format.specs.Reader.{Reader};
ghost use Rattle.bsii_format.specs.Strings.{Id, id_parser};
ghost use Rattle.bsii_format.specs.Values.{Value, value_parser};
ghost use Rattle.bsii_format.proofs.Readers.{Exact};
ghost use Rattle.bsii_format.proofs.Parsers.{id_exact, value_exact};
ghost use Rattle.bsii_string.specs.Answers.{end_of};
ghost use Rattle.bsii_skip.specs.Unchecked.{unchecked_id, unchecked_value};
ghost use Rattle.bsii_skip.specs.Exact.{unchecked_id_exact, unchecked_value_exact};
ghost use Rattle.bsii_block.specs.Blocks.{ValuesWith, DefinedWith, DefinedEnd, BlockSkipped};

use bsii_base38::CharPairs;
use bsii_prototype::answers::{Counted, Entry};
use bsii_prototype::fields::entry_with;
use bsii_prototype::skip::fields_at;
use bsii_prototype::strings::Unchecked;
use bsii_skip::{skip_id, skip_value};
use bsii_string::answers::Refusal;
use bsii_value::values::value_parser;
use bsii_word::words::id_parser;

// How the parts of a block are passed: checked, or unchecked, where they were accepted before.
trait Parts {
    ghost own: { Type 0 };

    ghost value: { Type 0 };

    ghost id: { Reader own };

    ghost values: { ℕ → ℕ → Reader value };

    // Where the block's own id at a position ends.
    fn id_end(&self, s: &[u8], at: usize) -> Result<usize, Refusal>
        ensures { result ≡ end_of (id at (drop at s.now)) };

    // And where the value of a type does.
    fn value_end(&self, s: &[u8], at: usize, version: u32, type_id: u32) -> Result<usize, Refusal>
        ensures { result ≡ end_of (values version type_id at (drop at s.now)) };

    ghost id_exact: { Exact own id };

    ghost value_exact: { (version type : ℕ) → Exact value (values version type) };
}

#[derive(Drop)]
struct Checked<'a>(&'a CharPairs);

impl Parts for Checked<'_> {
    ghost own = { Id };

    ghost value = { Value };

    ghost id = { id_parser };

    ghost values = { value_parser };

    ghost id_exact = { id_exact };

    ghost value_exact = { value_exact };

    fn id_end(&self, s: &[u8], at: usize) -> Result<usize, Refusal> {
        id_parser(self.0, s, at)
    }

    fn value_end(&self, s: &[u8], at: usize, version: u32, type_id: u32) -> Result<usize, Refusal> {
        value_parser(self.0, s, at, version, type_id)
    }
}

impl Parts for Unchecked {
    ghost own = { Unit {0} };

    ghost value = { Unit {0} };

    ghost id = { unchecked_id };

    ghost values = { unchecked_value };

    ghost id_exact = { unchecked_id_exact };

    ghost value_exact = { unchecked_value_exact };

    fn id_end(&self, s: &[u8], at: usize) -> Result<usize, Refusal> {
        skip_id(s, at)
    }

    fn value_end(&self, s: &[u8], at: usize, version: u32, type_id: u32) -> Result<usize, Refusal> {
        skip_value(s, at, version, type_id)
    }
}

// The values of a version from `start` on, one for each definition from `fields` on. Each definition has a byte at least, so the count stays below its
// position.
fn values_end<P: Parts>(
    parts: &P,
    s: &[u8],
    version: u32,
    fields: usize,
    start: usize,
) -> Result<Counted, Refusal>
    ensures { ValuesWith (P.values version) s.now fields start result }
{
    let mut field = fields;
    let mut at = start;
    let mut count: usize = 0;
    loop {
        match entry_with::<Unchecked>(s, field)? {
            Entry::Last(_) => return Ok(Counted { count, next: at }),
            Entry::Field {
                type_id,
                name: _,
                name_end: _,
                next,
            } => {
                at = parts.value_end(s, at, version, type_id)?;
                field = next;
                count += 1;
            }
        }
    }
}

// A block's id and its values.
fn block_end<P: Parts>(
    parts: &P,
    s: &[u8],
    version: u32,
    prototype: usize,
    at: usize,
) -> Result<Counted, Refusal>
    ensures { DefinedWith P.id (P.values version) s.now prototype at result }
{
    let fields = fields_at(s, prototype)?;
    let start = parts.id_end(s, at)?;
    values_end(parts, s, version, fields, start)
}

// The block whose own id starts at `at`, under the prototype at the offset `prototype`.
pub fn block_parser(
    chars: &CharPairs,
    s: &[u8],
    version: u32,
    prototype: usize,
    at: usize,
) -> Result<Counted, Refusal>
    ensures { DefinedEnd version s.now prototype at result }
{
    block_end(&Checked(chars), s, version, prototype, at)
}

// The same where it was accepted before: nothing is checked again.
pub fn skip_block(s: &[u8], version: u32, prototype: usize, at: usize) -> Result<Counted, Refusal>
    ensures { BlockSkipped version s.now prototype at result }
{
    block_end(&Unchecked, s, version, prototype, at)
}
