// Lines. Each but a string's asks once where it lies: inside the window, with room for the longest that it can be, it is stored; else its pieces ask.
// One function over all values would be no plainer: numbers and ids have a text only where their bytes were accepted, and a clause would have to say so of each.
ghost use Rattle.bsii_format.specs.Digits.{decimal};
ghost use Rattle.bsii_format.specs.Types.{numbers, id};
ghost use Rattle.bsii_format.specs.Text.{string_text, field_line};
ghost use Rattle.bsii_value.specs.Kinds.{numeric_is};
ghost use Rattle.bsii_text_length.specs.Words.{encoded_text};
ghost use Rattle.bsii_window.specs.Window.{Wrote};
ghost use Rattle.bsii_line.specs.Lines.{LineWritten};

use bsii_base38::CharPairs;
use bsii_numeric::numeric::{store_numeric, write_numeric};
use bsii_opening::openings::{Label, Plain};
use bsii_value::types::Numeric;
use bsii_window::digits::{store_decimal, write_decimal};
use bsii_window::window::{Overlap, overlap_of, put, store_byte};
use bsii_write::strings::write_string;
use bsii_write_id::ids::{store_id, write_id};
use bsii_write_word::words::{store_encoded, write_encoded_string};

pub const LINE_END: u8 = b'\n';

// How many elements an array has.
pub fn count_line(out: &mut [u8], to: usize, name: &[u8], n: u32) -> usize
    ensures { Wrote out.old to (field_line name.now (decimal n)) result out.new }
{
    let wide = u64::from(n);
    let place = overlap_of(out.len(), to, name.len() + 25);
    if let Overlap::Inside(start) = place {
        let next = Plain.store_opening(out, start, name);
        let end = store_decimal(out, next, wide);
        return store_byte(out, end, LINE_END) + 0x8000_0000_0000_0000;
    }
    let next = Plain.put_opening(out, to, name);
    let end = write_decimal(out, next, wide);
    put(out, end, LINE_END)
}

pub fn number_line<L: Label>(
    out: &mut [u8],
    to: usize,
    label: L,
    name: &[u8],
    raw: &[u8],
    kind: Numeric,
) -> usize
    ensures { LineWritten (L.of label name.now) raw.now (numbers (numeric_is kind)) out.old to result out.new }
{
    let place = overlap_of(out.len(), to, name.len() + (L::MORE + 206));
    if let Overlap::Inside(start) = place {
        let next = label.store_opening(out, start, name);
        let end = store_numeric(out, next, raw, kind);
        return store_byte(out, end, LINE_END) + 0x8000_0000_0000_0000;
    }
    let next = label.put_opening(out, to, name);
    let end = write_numeric(out, next, raw, kind);
    put(out, end, LINE_END)
}

// No accepted id has more than 2,033 bytes.
pub fn id_line<L: Label>(
    chars: &CharPairs,
    out: &mut [u8],
    to: usize,
    label: L,
    name: &[u8],
    raw: &[u8],
) -> usize
    ensures { LineWritten (L.of label name.now) raw.now id out.old to result out.new }
{
    if raw.len() <= 2033 {
        let place = overlap_of(out.len(), to, name.len() + 2 * raw.len() + (L::MORE + 34));
        if let Overlap::Inside(start) = place {
            let next = label.store_opening(out, start, name);
            let end = store_id(chars, out, next, raw);
            return store_byte(out, end, LINE_END) + 0x8000_0000_0000_0000;
        }
    }
    let next = label.put_opening(out, to, name);
    let end = write_id(chars, out, next, raw);
    put(out, end, LINE_END)
}

pub fn word_line<L: Label>(
    chars: &CharPairs,
    out: &mut [u8],
    to: usize,
    label: L,
    name: &[u8],
    word: u64,
) -> usize
    ensures { Wrote out.old to (field_line (L.of label name.now) (encoded_text word)) result out.new }
{
    let place = overlap_of(out.len(), to, name.len() + (L::MORE + 18));
    if let Overlap::Inside(start) = place {
        let next = label.store_opening(out, start, name);
        let end = store_encoded(chars, out, next, word);
        return store_byte(out, end, LINE_END) + 0x8000_0000_0000_0000;
    }
    let next = label.put_opening(out, to, name);
    let end = write_encoded_string(chars, out, next, word);
    put(out, end, LINE_END)
}

// A string, or the string of an enum value. How long its text is, only looking through it tells: so its pieces ask.
pub fn text_line<L: Label>(out: &mut [u8], to: usize, label: L, name: &[u8], text: &[u8]) -> usize
    ensures { Wrote out.old to (field_line (L.of label name.now) (string_text text.now)) result out.new }
{
    let next = label.put_opening(out, to, name);
    let end = write_string(out, next, text);
    put(out, end, LINE_END)
}
