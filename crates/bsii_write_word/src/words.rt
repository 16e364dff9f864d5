// Encoded words.
ghost use Rattle.std.specs.Prelude.{◌+◌, ◌≤◌, length};
ghost use Rattle.bsii_text_length.specs.Words.{spelling, encoded_text};
ghost use Rattle.bsii_window.specs.Stored.{Stored};
ghost use Rattle.bsii_window.specs.Window.{Wrote};

use bsii_base38::{CharPairs, first, second};
use bsii_text_length::words::encoded_length;
use bsii_window::window::{Overlap, further, overlap_of, put_all, store_text};

// A word's characters, the lowest digit first, two for each division. No word of 64 bits has more than thirteen.
pub fn store_word(chars: &CharPairs, out: &mut [u8], to: usize, word: u64) -> usize
    requires { to + 13 ≤ length out.old }
    ensures { Stored out.old to (spelling word) result out.new × (result ≤ to + 13) }
{
    let mut i = to;
    let mut rest = word;
    while 1443 < rest {
        let above = rest / 1444;
        let pair = chars.pair_at(rest - above * 1444);
        out[i] = first(pair);
        out[i + 1] = second(pair);
        rest = above;
        i += 2;
    }
    if rest == 0 {
        return i;
    }
    let pair = chars.pair_at(rest);
    out[i] = first(pair);
    if rest < 38 {
        return i + 1;
    }
    out[i + 1] = second(pair);
    i + 2
}

// A word's low 63 bits, as a value: bit 63 is the caller's to drop.
pub fn store_encoded(chars: &CharPairs, out: &mut [u8], to: usize, word: u64) -> usize
    requires { to + 13 ≤ length out.old }
    ensures { Stored out.old to (encoded_text word) result out.new × (result ≤ to + 13) }
{
    if word == 0 {
        return store_text(out, to, b"\"\"");
    }
    store_word(chars, out, to, word)
}

// Nothing is counted where there is room for the longest word. Across an edge of the window it is put from an array.
pub fn write_encoded_string(chars: &CharPairs, out: &mut [u8], at: usize, word: u64) -> usize
    ensures { Wrote out.old at (encoded_text word) result out.new }
{
    let place = overlap_of(out.len(), at, 13);
    match place {
        Overlap::Past => return further(at, encoded_length(word)),
        Overlap::Across => {
            let mut text = [0u8; 13];
            let end = store_encoded(chars, &mut text, 0, word);
            return put_all(out, at, &text[..end]);
        }
        Overlap::Inside(start) => {
            let end = store_encoded(chars, out, start, word);
            return end + 0x8000_0000_0000_0000;
        }
    }
}
