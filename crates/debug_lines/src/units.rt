//! The units of `.debug_line`: what a header says, and the program behind it (DWARF 5, section 6.2.4).

use crate::reader::Reader;

/// The sections that are read.
#[derive(Clone, Copy)]
pub struct Sections<'a> {
    pub lines: &'a [u8],
    pub line_strings: &'a [u8],
    pub strings: &'a [u8],
}

/// What the header of a unit says: how its program counts, and the tables of its folders and files. The program follows.
#[derive(Clone, Copy)]
pub struct Unit<'a> {
    pub version: u16,
    /// The bytes by which one step of the program moves on in the code.
    pub step: u32,
    /// The least number by which an operation of one byte moves on in the source, modulo 2^32, and how many there are.
    pub line_base: u32,
    pub line_range: u8,
    /// The first operation that moves on by its own number, and how many numbers follow each of those below it.
    pub first_special: u8,
    pub lengths: &'a [u8],
    pub tables: Reader<'a>,
    pub program: Reader<'a>,
}

/// A length of 32 bits is below this number.
const LONG: u32 = 0xFFFF_FFF0;

// A number of one byte with its sign, modulo 2^32.
fn signed_byte(byte: u8) -> u32 {
    if byte < 128 {
        return u32::from(byte);
    }
    u32::from(byte).wrapping_sub(256)
}

/// The bytes of the next unit. None behind the last one, or where its length isn't one of 32 bits.
pub fn next_unit<'a>(section: &mut Reader<'a>) -> Option<Reader<'a>> {
    let length = section.word()?;
    if length >= LONG {
        return None;
    }
    let bytes = section.take(length as usize)?;
    Some(Reader { bytes })
}

/// The header of a unit, of a version that is known.
pub fn unit_of<'a>(bytes: Reader<'a>) -> Option<Unit<'a>> {
    let mut rest = bytes;
    let version = rest.half()?;
    if !(2..6).contains(&version) {
        return None;
    }
    if version == 5 {
        // The sizes of an address and of a segment's number.
        rest.skip(2)?;
    }
    let length = rest.word()?;
    let mut header = Reader {
        bytes: rest.take(length as usize)?,
    };
    let step = u32::from(header.byte()?);
    if version >= 4 {
        // How many operations an instruction has: 1 for this machine.
        header.skip(1)?;
    }
    // Whether a row begins a statement.
    header.skip(1)?;
    let line_base = signed_byte(header.byte()?);
    let line_range = header.byte()?;
    let first_special = header.byte()?;
    let lengths = header.take(usize::from(first_special).saturating_sub(1))?;
    Some(Unit {
        version,
        step,
        line_base,
        line_range,
        first_special,
        lengths,
        tables: header,
        program: rest,
    })
}
