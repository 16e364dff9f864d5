// The prototype at an offset, for the block that names it.
ghost use Rattle.std.specs.Prelude.{◌≡◌, drop};
ghost use Rattle.bsii_format.specs.Replies.{undefined_prototype};
ghost use Rattle.bsii_derived.specs.IndexCalls.{prototype_head};
ghost use Rattle.bsii_string.specs.Answers.{refused_at};
ghost use Rattle.bsii_index_field.specs.Looks.{head_of, marked_head, named_head, PrototypeRead};

use bsii_format::Cause;
use bsii_prototype::fields::fields_parser;
use bsii_string::answers::{Refusal, refused};
use bsii_string::numbers::{le_u8, le_u32};
use bsii_string::strings::str_end;

// A prototype's id, and the offset of its first field definition.
#[derive(Clone, Copy)]
pub struct Prototype {
    pub id: u32,
    pub fields: usize,
}

// What is no prototype is none of the block's: 6 at the block.
fn stranger(block: usize) -> Refusal
    ensures { result ≡ refused_at undefined_prototype block }
{
    refused(Cause::UndefinedPrototype, block)
}

fn named_head(s: &[u8], at: usize) -> Result<Prototype, Refusal>
    ensures { result ≡ head_of (named_head at (drop at s.now)) }
{
    let (id, next) = le_u32(s, at)?;
    let fields = str_end(s, next)?;
    Ok(Prototype { id, fields })
}

fn marked_head(s: &[u8], at: usize, block: usize) -> Result<Prototype, Refusal>
    ensures { result ≡ head_of (marked_head block at (drop at s.now)) }
{
    let (m, next) = le_u8(s, at)?;
    if m != 1 {
        return Err(stranger(block));
    }
    named_head(s, next)
}

// The head of the prototype at `at`, for the block at `block`.
fn prototype_head(s: &[u8], at: usize, block: usize) -> Result<Prototype, Refusal>
    ensures { result ≡ head_of (prototype_head block at (drop at s.now)) }
{
    let (n, next) = le_u32(s, at)?;
    if n != 0 {
        return Err(stranger(block));
    }
    marked_head(s, next, block)
}

// The whole prototype, to its closing zero.
pub fn prototype_parser(s: &[u8], at: usize, block: usize) -> Result<Prototype, Refusal>
    ensures { PrototypeRead s.now at block result }
{
    let head = prototype_head(s, at, block)?;
    fields_parser(s, head.fields)?;
    Ok(head)
}
