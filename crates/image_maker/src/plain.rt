//! Plain images.

ghost use Rattle.std.specs.Prelude.{◌≡◌, ◌<◌, ◌≤◌, ◌*◌, ◌++◌, length, OnOk, IfOk};
ghost use Rattle.image_maker.specs.PlainImage as plain;
ghost use Rattle.image_maker.specs.HoldsWords.{HoldsWords};

use byteorder::{ByteOrder, LittleEndian};
use scale_base::{NoMemory, WORD_LIMIT};
use std::alloc::Global;

const START: u32 = 0x0001_0000;

/// The header of the file: an executable for RISC-V with one program header behind it.
const FILE_HEADER: [u8; 52] = [
    0x7F, 0x45, 0x4C, 0x46, 1, 1, 1, 0, 0, 0, 0, 0, 0, 0, 0, 0, 2, 0, 243, 0, 1, 0, 0, 0, 0, 0, 1,
    0, 52, 0, 0, 0, 0, 0, 0, 0, 0, 0, 0, 0, 52, 0, 32, 0, 1, 0, 0, 0, 0, 0, 0, 0,
];

/// Adds the program header of a segment of so many bytes.
fn push_program_header(out: &mut Vec<u8>, len: u32) -> Result<(), NoMemory>
    ensures { OnOk result (out.new.items ≡ out.old.items ++ plain.made_program_header len) }
{
    let mut header = [0; 32];
    LittleEndian::write_u32_into(&[1, 84, START, START, len, len, 5, 4], &mut header);
    out.extend_from_slice(&header)?;
    Ok(())
}

/// Adds the words, each with its lowest byte first.
fn push_words(out: &mut Vec<u8>, words: &[u32]) -> Result<(), NoMemory>
    ensures { OnOk result (out.new.items ≡ out.old.items ++ plain.words words.now) }
{
    for word in words {
        out.extend_from_slice(&word.to_le_bytes())?;
    }
    Ok(())
}

/// An ELF file with one loaded segment, which begins with the words at 0x10000, where the program starts. Of one word or more it
/// is an image, and they are its text.
pub fn plain_image(alloc: Global, words: &[u32]) -> Result<Vec<u8>, NoMemory>
    requires { length words.now ≤ WORD_LIMIT }
    ensures bytes { IfOk result (λ file. file.items ≡ plain.plain_image words.now) }
    ensures image { IfOk result (λ file. 0 < length words.now → HoldsWords words.now file.items) }
{
    let mut file = Vec::from_slice(alloc, &FILE_HEADER)?;
    push_program_header(&mut file, 4 * words.len() as u32)?;
    push_words(&mut file, words)?;
    Ok(file)
}
