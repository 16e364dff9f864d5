// What stands in front of a value: the name of its field, and in an array its index.
ghost use Rattle.std.specs.Prelude.{◌++◌, ◌+◌, ◌≤◌, ℕ, List, length};
ghost use Rattle.bsii_format.specs.Ascii.{ascii};
ghost use Rattle.bsii_format.specs.Text.{indexed};
ghost use Rattle.bsii_window.specs.Stored.{Stored};
ghost use Rattle.bsii_window.specs.Window.{Wrote};
ghost use Rattle.std.proofs.Common.{rules};

use bsii_copy::names::store_name;
use bsii_window::digits::{store_decimal, write_decimal};
use bsii_window::window::{Overlap, overlap_of, put, put_all, store_byte, store_text};

// How a line calls its value, by the name of its field. The compiler makes a line's writer anew for each, so that none asks which it is.
pub trait Label: Copy {
    ghost of: { Self → List ℕ → List ℕ };

    // By how much it can be longer than the name.
    ghost MORE: { ℕ };

    const MORE: usize;

    // `  LABEL: `
    fn store_opening(self, out: &mut [u8], to: usize, name: &[u8]) -> usize
        requires { to + (length name.now + (MORE + 4)) ≤ length out.old }
        ensures { Stored out.old to (ascii "  " ++ of self name.now ++ ascii ": ") result out.new × (result ≤ to + (length name.now + (MORE + 4))) };

    // The same, piece by piece where not all of it surely lies in the window.
    fn put_opening(self, out: &mut [u8], to: usize, name: &[u8]) -> usize
        ensures { Wrote out.old to (ascii "  " ++ of self name.now ++ ascii ": ") result out.new };

    ghost few: { MORE ≤ 22 };
}

// `NAME`
#[derive(Clone, Copy)]
pub struct Plain;

impl Label for Plain {
    ghost of = { λ _ name. name };

    ghost MORE = { 0 };

    const MORE: usize = 0;

    ghost few = { Prim.search rules };

    fn store_opening(self, out: &mut [u8], to: usize, name: &[u8]) -> usize {
        let start = store_text(out, to, b"  ");
        let next = store_name(out, start, name);
        store_text(out, next, b": ")
    }

    fn put_opening(self, out: &mut [u8], to: usize, name: &[u8]) -> usize {
        let place = overlap_of(out.len(), to, name.len() + 4);
        if let Overlap::Inside(start) = place {
            return self.store_opening(out, start, name) + 0x8000_0000_0000_0000;
        }
        let next = put_all(out, to, b"  ");
        let end = put_all(out, next, name);
        put_all(out, end, b": ")
    }
}

// `NAME[i]`, with room for any index.
#[derive(Clone, Copy)]
pub struct Indexed(pub u32);

impl Label for Indexed {
    ghost of = { λ label name. indexed name label.0 };

    ghost MORE = { 22 };

    const MORE: usize = 22;

    ghost few = { Prim.search rules };

    fn store_opening(self, out: &mut [u8], to: usize, name: &[u8]) -> usize {
        let start = store_text(out, to, b"  ");
        let next = store_name(out, start, name);
        let open = store_byte(out, next, b'[');
        let close = store_decimal(out, open, u64::from(self.0));
        store_text(out, close, b"]: ")
    }

    fn put_opening(self, out: &mut [u8], to: usize, name: &[u8]) -> usize {
        let place = overlap_of(out.len(), to, name.len() + 26);
        if let Overlap::Inside(start) = place {
            return self.store_opening(out, start, name) + 0x8000_0000_0000_0000;
        }
        let next = put_all(out, to, b"  ");
        let end = put_all(out, next, name);
        let open = put(out, end, b'[');
        let close = write_decimal(out, open, u64::from(self.0));
        put_all(out, close, b"]: ")
    }
}
