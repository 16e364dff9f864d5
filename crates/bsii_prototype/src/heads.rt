// The header of a file, and the heads of records.
ghost use Rattle.std.specs.Prelude.{◌≡◌, length, take, drop};
ghost use Rattle.bsii_format.specs.Reader.{same};
ghost use Rattle.bsii_format.specs.File.{mark_parser, head_parser, header_parser};
ghost use Rattle.bsii_prototype.specs.Answers.{head_is, header_is};
ghost use Rattle.bsii_prototype.specs.Entries.{marked_parser};

use crate::answers::Head;
use bsii_format::Cause;
use bsii_string::answers::{Refusal, refused};
use bsii_string::numbers::{le_u8, le_u32};
use bsii_string::strings::str_parser;

// Whether the file starts with these bytes.
pub fn tag(s: &[u8], c: &[u8]) -> bool
    ensures { result ≡ same (take (length c.now) s.now) c.now }
{
    s.starts_with(c)
}

// The file's version. Its records start at 8.
pub fn header_parser(s: &[u8]) -> Result<u32, Refusal>
    ensures { header_is s.now result ≡ header_parser 0 s.now }
{
    if !tag(s, b"BSII") {
        return Err(refused(Cause::InvalidHeader, 0));
    }
    let (version, _) = le_u32(s, 4)?;
    Ok(version)
}

// What follows the byte 1 of a prototype.
fn defining_parser(s: &[u8], at: usize) -> Result<Head, Refusal>
    ensures { head_is s.now result ≡ mark_parser 1 at (drop at s.now) }
{
    let (id, behind) = le_u32(s, at)?;
    let name = str_parser(s, behind)?;
    Ok(Head::Prototype {
        id,
        name: name.start,
        next: name.next,
    })
}

// What follows a record number of zero.
fn marked_parser(s: &[u8], at: usize) -> Result<Head, Refusal>
    ensures { head_is s.now result ≡ marked_parser at (drop at s.now) }
{
    let (mark, next) = le_u8(s, at)?;
    match mark {
        0 => Ok(Head::End(next)),
        1 => defining_parser(s, next),
        _ => Err(refused(Cause::BadMark, at)),
    }
}

pub fn head_parser(s: &[u8], at: usize) -> Result<Head, Refusal>
    ensures { head_is s.now result ≡ head_parser at (drop at s.now) }
{
    let (id, next) = le_u32(s, at)?;
    if id == 0 {
        return marked_parser(s, next);
    }
    Ok(Head::Block { id, next })
}
