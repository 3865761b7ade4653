ghost use Rattle.std.specs.Prelude.{◌≡◌, ℕ, ◌++◌, ◌/◌, ◌%◌, ◌^◌, ◌<◌, map, OnOk};
ghost use Rattle.std.specs.List.{All, flat_map};
ghost use Rattle.scale_base.specs.Word.{FieldsInRange, word_of};
ghost use Rattle.stub_writer.specs.Stubs as stubs;

use rv_encode::encode;
use scale_base::{Instr, NoMemory};

/// An address that may have passed the end of the address space.
pub fn address(place: u64) -> u32
    ensures { result ≡ place % 2 ^ 32 }
{
    (place % 0x1_0000_0000) as u32
}

fn byte(word: u32, low: u32) -> u8
    requires { low < 32 }
    ensures { result ≡ word / 2 ^ low % 2 ^ 8 }
{
    (word >> low & 0xFF) as u8
}

pub fn push_word(out: &mut Vec<u8>, word: u32) -> Result<(), NoMemory>
    ensures { OnOk result (out.new.items ≡ out.old.items ++ stubs.word_bytes word) }
{
    let bytes = [byte(word, 0), byte(word, 8), byte(word, 16), byte(word, 24)];
    out.extend_from_slice(&bytes)?;
    Ok(())
}

fn push_instr(out: &mut Vec<u8>, instr: &Instr) -> Result<(), NoMemory>
    requires { FieldsInRange instr.now }
    ensures { OnOk result (out.new.items ≡ out.old.items ++ stubs.word_bytes (word_of instr.now)) }
{
    match encode(instr) {
        Some(word) => push_word(out, word),
        None => Ok(()),
    }
}

pub fn push_code(out: &mut Vec<u8>, code: &[Instr]) -> Result<(), NoMemory>
    requires { All FieldsInRange code.now }
    ensures { OnOk result (out.new.items ≡ out.old.items ++ stubs.code_bytes code.now) }
{
    for instr in code {
        push_instr(out, instr)?;
    }
    Ok(())
}
