//! Headers of sections, and the bytes of sections (System V ABI, chapter 4).

use crate::fields::{bytes_at, half, word};

// Kinds of sections: those of a program, of symbols and of strings.
pub const SHT_PROGBITS: u32 = 1;

pub const SHT_SYMTAB: u32 = 2;

pub const SHT_STRTAB: u32 = 3;

/// The flag of a section whose bytes are compressed.
const SHF_COMPRESSED: u32 = 0x800;

const SECTION_HEADER: usize = 40;

/// How many headers of sections a file has.
pub fn section_count(file: &[u8]) -> u16 {
    half(file, 48)
}

/// The header of a section, and what follows it.
pub fn section_header(file: &[u8], number: u32) -> &[u8] {
    bytes_at(
        file,
        word(file, 32) as usize + SECTION_HEADER * number as usize,
    )
}

/// The bytes of a section, by those of its header, where it is of the kind and lies in the file.
pub fn section<'a>(file: &'a [u8], header: &[u8], kind: u32) -> Option<&'a [u8]> {
    if word(header, 4) != kind {
        return None;
    }
    let at = word(header, 16) as usize;
    let size = word(header, 20) as usize;
    file.get(at..at + size)
}

// Whether a name stands at a place of the strings.
fn is_named(strings: &[u8], at: u32, name: &[u8]) -> bool {
    let bytes = bytes_at(strings, at as usize);
    bytes.starts_with(name) && bytes.get(name.len()) == Some(&0)
}

/// The bytes of the first section with a name, where it belongs to the program and isn't compressed.
pub fn section_named<'a>(file: &'a [u8], name: &[u8]) -> Option<&'a [u8]> {
    let names = section_header(file, u32::from(half(file, 50)));
    let strings = section(file, names, SHT_STRTAB)?;
    for number in 0..section_count(file) {
        let header = section_header(file, u32::from(number));
        if is_named(strings, word(header, 0), name) {
            if word(header, 8) & SHF_COMPRESSED != 0 {
                return None;
            }
            return section(file, header, SHT_PROGBITS);
        }
    }
    None
}
