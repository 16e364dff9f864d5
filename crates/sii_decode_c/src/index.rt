// The calls about an index beside a save.
ghost use Rattle.std.specs.Prelude.{◌≡◌, [], length};
ghost use Rattle.bsii_format.specs.Calls.{table_after};
ghost use Rattle.bsii_derived.specs.Index.{index_width};
ghost use Rattle.bsii_derived.specs.IndexCalls.{write_index_call, check_index_call, index_field_call, defines_once_call};
ghost use Rattle.bsii_index.specs.Answers.{checked_is, length_is};
ghost use Rattle.sii_decode_c.specs.Exports.{number_out, field_out, length_out, checked_out};

use crate::calls::{SiiField, SiiNumber};
use bsii_file::once::defines_once;
use bsii_index::check::check_index;
use bsii_index::write::write_index;
use bsii_index_field::field_by_index;
use bsii_string::answers::{Refusal, Unwritten};

#[repr(C)]
#[derive(Drop)]
pub struct SiiLength {
    pub number: u32,
    pub offset: u64,
    pub lacking: u64,
    pub length: u64,
}

impl From<Result<usize, Unwritten>> for SiiLength {
    ghost from_gives = { λ reply out. out ≡ length_out (length_is reply []) };

    fn from(reply: Result<usize, Unwritten>) -> SiiLength {
        match reply {
            Ok(n) => SiiLength {
                number: 0,
                offset: 0,
                lacking: 0,
                length: n as u64,
            },
            Err(f) => SiiLength {
                number: f.refusal.cause.into(),
                offset: f.refusal.offset as u64,
                lacking: u64::from(f.refusal.lacking),
                length: f.needed as u64,
            },
        }
    }
}

#[repr(C)]
#[derive(Drop)]
pub struct SiiChecked {
    pub number: u32,
    pub offset: u64,
    pub lacking: u64,
}

impl From<Result<(), Refusal>> for SiiChecked {
    ghost from_gives = { λ reply out. out ≡ checked_out (checked_is reply) };

    fn from(reply: Result<(), Refusal>) -> SiiChecked {
        match reply {
            Ok(()) => SiiChecked {
                number: 0,
                offset: 0,
                lacking: 0,
            },
            Err(f) => SiiChecked {
                number: f.cause.into(),
                offset: f.offset as u64,
                lacking: u64::from(f.lacking),
            },
        }
    }
}

#[unsafe(no_mangle)]
pub extern "C" fn sii_write_index(file: &[u8], table: &mut [u32], index: &mut [u8]) -> SiiLength
    ensures reply { result ≡ length_out (write_index_call index_width (length table.old) file.now index.old) }
    ensures index { index.new ≡ (write_index_call index_width (length table.old) file.now index.old).output }
    ensures zeros { table.new ≡ table_after table.old }
{
    write_index(file, table, index).into()
}

#[unsafe(no_mangle)]
pub extern "C" fn sii_check_index(file: &[u8], table: &mut [u32], index: &[u8]) -> SiiChecked
    ensures reply { result ≡ checked_out (check_index_call index_width (length table.old) file.now index.now) }
    ensures zeros { table.new ≡ table_after table.old }
{
    check_index(file, table, index).into()
}

#[unsafe(no_mangle)]
pub extern "C" fn sii_field_by_index(file: &[u8], index: &[u8], block: u64, name: &[u8]) -> SiiField
    ensures reply { result ≡ field_out (index_field_call index_width file.now index.now block name.now) }
{
    field_by_index(file, index, block as usize, name).into()
}

#[unsafe(no_mangle)]
pub extern "C" fn sii_defines_once(file: &[u8], table: &mut [u32]) -> SiiNumber
    ensures reply { result ≡ number_out (defines_once_call (length table.old) file.now) }
    ensures zeros { table.new ≡ table_after table.old }
{
    defines_once(file, table).into()
}
