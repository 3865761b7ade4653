//! Numbers at a place of bytes that may end before it.

ghost use Rattle.std.specs.Prelude.{◌≡◌, drop};

use byteorder::{ByteOrder, LittleEndian};

/// The bytes from one place on: none behind the end.
pub fn bytes_at(bytes: &[u8], at: usize) -> &[u8]
    ensures { result.now ≡ drop at bytes.now }
{
    if at > bytes.len() {
        return &[];
    }
    &bytes[at..]
}

/// The number of two bytes at a place, the low one first, or 0 behind the end.
pub fn half(bytes: &[u8], at: usize) -> u16 {
    match bytes_at(bytes, at) {
        [low, high, ..] => LittleEndian::read_u16(&[*low, *high]),
        _ => 0,
    }
}

/// The number of four bytes at a place, the low one first, or 0 behind the end.
pub fn word(bytes: &[u8], at: usize) -> u32 {
    match bytes_at(bytes, at) {
        [a, b, c, d, ..] => LittleEndian::read_u32(&[*a, *b, *c, *d]),
        _ => 0,
    }
}
