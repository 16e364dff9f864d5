// The file calls. A refusal has its number, its offset and how many bytes are lacking; number 0 is an answer.
ghost use Rattle.std.specs.Prelude.{◌≡◌, [], length};
ghost use Rattle.bsii_format.specs.Calls.{reading_call, prototype_call, block_call, named_block_call, field_call, text_call, table_after};
ghost use Rattle.bsii_parse.specs.Answers.{reading_is};
ghost use Rattle.bsii_file.specs.Answers.{prototype_is, block_is, number_is};
ghost use Rattle.bsii_file_field.specs.Answers.{field_is};
ghost use Rattle.bsii_output.specs.Answers.{text_is};
ghost use Rattle.sii_decode_c.specs.Exports.{reading_out, prototype_out, block_out, number_out, field_out, text_out};

use bsii_file::blocks::{BlockHead, block_at, blocks_by_prototype_name};
use bsii_file::prototypes::{PrototypeHead, get_prototype};
use bsii_file_field::answers::Field;
use bsii_file_field::fields::field;
use bsii_output::text::{Converted, to_siin};
use bsii_parse::reading::{Reading, parse};
use bsii_string::answers::{Refusal, Unwritten};

#[repr(C)]
#[derive(Drop)]
pub struct SiiReading {
    pub number: u32,
    pub offset: u64,
    pub lacking: u64,
    pub prototypes: u64,
    pub blocks: u64,
    pub next: u64,
}

impl From<Result<Reading, Refusal>> for SiiReading {
    ghost from_gives = { λ reply out. out ≡ reading_out (reading_is reply) };

    fn from(reply: Result<Reading, Refusal>) -> SiiReading {
        match reply {
            Ok(a) => SiiReading {
                number: 0,
                offset: 0,
                lacking: 0,
                prototypes: a.prototypes as u64,
                blocks: a.blocks as u64,
                next: a.next as u64,
            },
            Err(f) => SiiReading {
                number: f.cause.into(),
                offset: f.offset as u64,
                lacking: u64::from(f.lacking),
                prototypes: 0,
                blocks: 0,
                next: 0,
            },
        }
    }
}

#[repr(C)]
#[derive(Drop)]
pub struct SiiPrototype {
    pub number: u32,
    pub offset: u64,
    pub lacking: u64,
    pub name_offset: u64,
    pub name_len: u64,
    pub fields: u64,
}

impl From<Result<PrototypeHead, Refusal>> for SiiPrototype {
    ghost from_gives = { λ reply out. out ≡ prototype_out (prototype_is reply) };

    fn from(reply: Result<PrototypeHead, Refusal>) -> SiiPrototype {
        match reply {
            Ok(a) => SiiPrototype {
                number: 0,
                offset: 0,
                lacking: 0,
                name_offset: a.name as u64,
                name_len: a.name_size as u64,
                fields: a.fields as u64,
            },
            Err(f) => SiiPrototype {
                number: f.cause.into(),
                offset: f.offset as u64,
                lacking: u64::from(f.lacking),
                name_offset: 0,
                name_len: 0,
                fields: 0,
            },
        }
    }
}

#[repr(C)]
#[derive(Drop)]
pub struct SiiBlock {
    pub number: u32,
    pub offset: u64,
    pub lacking: u64,
    pub prototype_id: u32,
    pub id_offset: u64,
    pub id_len: u64,
}

impl From<Result<BlockHead, Refusal>> for SiiBlock {
    ghost from_gives = { λ reply out. out ≡ block_out (block_is reply) };

    fn from(reply: Result<BlockHead, Refusal>) -> SiiBlock {
        match reply {
            Ok(a) => SiiBlock {
                number: 0,
                offset: 0,
                lacking: 0,
                prototype_id: a.prototype_id,
                id_offset: a.id as u64,
                id_len: a.id_size as u64,
            },
            Err(f) => SiiBlock {
                number: f.cause.into(),
                offset: f.offset as u64,
                lacking: u64::from(f.lacking),
                prototype_id: 0,
                id_offset: 0,
                id_len: 0,
            },
        }
    }
}

#[repr(C)]
#[derive(Drop)]
pub struct SiiNumber {
    pub number: u32,
    pub offset: u64,
    pub lacking: u64,
    pub value: u64,
}

impl From<Result<usize, Refusal>> for SiiNumber {
    ghost from_gives = { λ reply out. out ≡ number_out (number_is reply) };

    fn from(reply: Result<usize, Refusal>) -> SiiNumber {
        match reply {
            Ok(value) => SiiNumber {
                number: 0,
                offset: 0,
                lacking: 0,
                value: value as u64,
            },
            Err(f) => SiiNumber {
                number: f.cause.into(),
                offset: f.offset as u64,
                lacking: u64::from(f.lacking),
                value: 0,
            },
        }
    }
}

#[repr(C)]
#[derive(Drop)]
pub struct SiiField {
    pub number: u32,
    pub offset: u64,
    pub lacking: u64,
    pub type_id: u32,
    pub part_offset: u64,
    pub part_len: u64,
}

impl From<Result<Field, Refusal>> for SiiField {
    ghost from_gives = { λ reply out. out ≡ field_out (field_is [] reply) };

    fn from(reply: Result<Field, Refusal>) -> SiiField {
        match reply {
            Ok(a) => SiiField {
                number: 0,
                offset: 0,
                lacking: 0,
                type_id: a.type_id,
                part_offset: a.part as u64,
                part_len: a.part_size as u64,
            },
            Err(f) => SiiField {
                number: f.cause.into(),
                offset: f.offset as u64,
                lacking: u64::from(f.lacking),
                type_id: 0,
                part_offset: 0,
                part_len: 0,
            },
        }
    }
}

#[repr(C)]
#[derive(Drop)]
pub struct SiiText {
    pub number: u32,
    pub offset: u64,
    pub lacking: u64,
    pub length: u64,
    pub steps: u64,
}

impl From<Result<Converted, Unwritten>> for SiiText {
    ghost from_gives = { λ reply out. out ≡ text_out (text_is reply []) };

    fn from(reply: Result<Converted, Unwritten>) -> SiiText {
        match reply {
            Ok(a) => SiiText {
                number: 0,
                offset: 0,
                lacking: 0,
                length: a.length as u64,
                steps: a.steps as u64,
            },
            Err(f) => SiiText {
                number: f.refusal.cause.into(),
                offset: f.refusal.offset as u64,
                lacking: u64::from(f.refusal.lacking),
                length: f.needed as u64,
                steps: 0,
            },
        }
    }
}

#[unsafe(no_mangle)]
pub extern "C" fn sii_read(file: &[u8], table: &mut [u32]) -> SiiReading
    ensures reply { result ≡ reading_out (reading_call (length table.old) file.now) }
    ensures zeros { table.new ≡ table_after table.old }
{
    parse(file, table).into()
}

#[unsafe(no_mangle)]
pub extern "C" fn sii_get_prototype(file: &[u8], table: &mut [u32], id: u32) -> SiiPrototype
    ensures reply { result ≡ prototype_out (prototype_call (length table.old) file.now id) }
    ensures zeros { table.new ≡ table_after table.old }
{
    get_prototype(file, table, id).into()
}

#[unsafe(no_mangle)]
pub extern "C" fn sii_block_at(file: &[u8], table: &mut [u32], n: u64) -> SiiBlock
    ensures reply { result ≡ block_out (block_call (length table.old) file.now n) }
    ensures zeros { table.new ≡ table_after table.old }
{
    block_at(file, table, n as usize).into()
}

#[unsafe(no_mangle)]
pub extern "C" fn sii_blocks_by_prototype_name(
    file: &[u8],
    table: &mut [u32],
    name: &[u8],
    n: u64,
) -> SiiNumber
    ensures reply { result ≡ number_out (named_block_call (length table.old) file.now name.now n) }
    ensures zeros { table.new ≡ table_after table.old }
{
    blocks_by_prototype_name(file, table, name, n as usize).into()
}

#[unsafe(no_mangle)]
pub extern "C" fn sii_field_of(file: &[u8], table: &mut [u32], block: u64, name: &[u8]) -> SiiField
    ensures reply { result ≡ field_out (field_call (length table.old) file.now block name.now) }
    ensures zeros { table.new ≡ table_after table.old }
{
    field(file, table, block as usize, name).into()
}

#[unsafe(no_mangle)]
pub extern "C" fn sii_to_siin(file: &[u8], table: &mut [u32], output: &mut [u8]) -> SiiText
    ensures reply { result ≡ text_out (text_call (length table.old) file.now output.old) }
    ensures text { output.new ≡ (text_call (length table.old) file.now output.old).output }
    ensures zeros { table.new ≡ table_after table.old }
{
    to_siin(file, table, output).into()
}
