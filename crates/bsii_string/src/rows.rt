// Items that stand one behind the other.
ghost use Rattle.std.specs.Prelude.{◌≡◌, drop};
ghost use Rattle.bsii_format.specs.Reader.{Reader, repeat};
ghost use Rattle.bsii_format.proofs.Readers.{Exact};
ghost use Rattle.bsii_string.specs.Answers.{end_of};

use crate::answers::Refusal;

// What ends where the specification's reader of an item does.
pub trait Item {
    ghost value: { Type 0 };

    ghost reader: { Self → Reader value };

    fn end(&self, s: &[u8], at: usize) -> Result<usize, Refusal>
        ensures { result ≡ end_of (reader self.now at (drop at s.now)) };

    ghost exact: { (item : Self) → Exact value (reader item) };
}

// So many items from `start` on.
pub fn row_end<I: Item>(item: &I, s: &[u8], start: usize, count: u32) -> Result<usize, Refusal>
    ensures { result ≡ end_of (repeat count (I.reader item.now) start (drop start s.now)) }
{
    let mut at = start;
    for _ in 0..count {
        at = item.end(s, at)?;
    }
    Ok(at)
}
