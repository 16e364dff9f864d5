// The way to the field definitions of a prototype that was accepted before.
ghost use Rattle.std.specs.Prelude.{◌≡◌, drop};
ghost use Rattle.bsii_string.specs.Answers.{end_of};
ghost use Rattle.bsii_prototype.specs.Entries.{unchecked_head};

use bsii_string::answers::Refusal;
use bsii_string::numbers::bytes_end;
use bsii_string::strings::skip_str;

// The first field definition of the prototype record at offset: behind a u32 zero, the byte 1, the u32 id and the name.
pub fn fields_at(s: &[u8], offset: usize) -> Result<usize, Refusal>
    ensures { result ≡ end_of (unchecked_head offset (drop offset s.now)) }
{
    let name = bytes_end(s, offset, 9)?;
    skip_str(s, name)
}
