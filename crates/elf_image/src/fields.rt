//! Numbers at a place of the file.

ghost use Rattle.std.specs.Prelude.{◌≡◌, ◌≤◌, ◌+◌, length};
ghost use Rattle.scale_base.specs.Bytes.{list_half_at, list_word_at};

use byteorder::{ByteOrder, LittleEndian};

/// The number of the two bytes at a place, the low byte first.
#[tactic(auto, unfolding(scale_base::specs::Bytes::list_half_at))]
pub fn half(bytes: &[u8], at: usize) -> u16
    requires { at + 2 ≤ length bytes.now }
    ensures { result ≡ list_half_at bytes.now at }
{
    LittleEndian::read_u16(&bytes[at..])
}

/// The number of the four bytes at a place, the low byte first.
#[tactic(auto, unfolding(scale_base::specs::Bytes::list_half_at, scale_base::specs::Bytes::list_word_at))]
pub fn word(bytes: &[u8], at: usize) -> u32
    requires { at + 4 ≤ length bytes.now }
    ensures { result ≡ list_word_at bytes.now at }
{
    LittleEndian::read_u32(&bytes[at..])
}
