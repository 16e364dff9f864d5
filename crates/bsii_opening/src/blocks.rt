// The first line of a block.
ghost use Rattle.bsii_opening.specs.Blocks.{OpeningWritten};

use bsii_base38::CharPairs;
use bsii_copy::names::store_name;
use bsii_window::window::{Overlap, overlap_of, put_all, store_text};
use bsii_write_id::ids::{store_id, write_id};

// `NAME : ID {`, of the name's and the id's bytes. Inside the window, with room for the longest that it can be, it is stored.
pub fn write_opening(chars: &CharPairs, out: &mut [u8], to: usize, name: &[u8], id: &[u8]) -> usize
    ensures { OpeningWritten name.now id.now out.old to result out.new }
{
    if id.len() <= 2033 {
        let place = overlap_of(out.len(), to, name.len() + 2 * id.len() + 35);
        if let Overlap::Inside(start) = place {
            let a = store_name(out, start, name);
            let b = store_text(out, a, b" : ");
            let c = store_id(chars, out, b, id);
            return store_text(out, c, b" {\n") + 0x8000_0000_0000_0000;
        }
    }
    let a = put_all(out, to, name);
    let b = put_all(out, a, b" : ");
    let c = write_id(chars, out, b, id);
    put_all(out, c, b" {\n")
}
