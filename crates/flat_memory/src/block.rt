//! A segment in memory.

use scale_base::KEY_FLAG;

/// The bytes of a segment from an address on, with the segment's flags (`p_flags`).
#[derive(Drop)]
pub struct Block {
    pub from: u32,
    pub bytes: Vec<u8>,
    pub flags: u32,
}

impl Block {
    ghost use Rattle.std.specs.Prelude.{◌≡◌, slice_index, ◌-◌, ◌==◌, IsTrue, vec_len};
    ghost use Rattle.flat_memory.specs.Blocks.{holds, HasValue};
    ghost use Rattle.flat_memory.specs.Blocks as words;

    pub fn is_empty(&self) -> bool
        ensures { result ≡ (vec_len self.now.bytes == 0) }
    {
        self.bytes.is_empty()
    }

    /// Whether the address is one of the block's.
    pub fn holds(&self, at: u32) -> bool
        ensures { result ≡ holds at self.now }
    {
        self.from <= at && ((at - self.from) as usize) < self.bytes.len()
    }

    /// Whether the block is without the key, and has the flag.
    pub fn allows(&self, flag: u32) -> bool
        ensures { result ≡ words.allows flag self.now }
    {
        self.flags & KEY_FLAG == 0 && self.flags & flag != 0
    }

    pub fn byte(&self, at: u32) -> u8
        requires { IsTrue (holds at self.now) }
        ensures { result ≡ slice_index self.now.bytes.items (at - self.now.from) }
    {
        self.bytes[(at - self.from) as usize]
    }

    pub fn set_byte(&mut self, at: u32, value: u8)
        requires { IsTrue (holds at self.old) }
        ensures { HasValue self.old self.new at value }
    {
        let index = (at - self.from) as usize;
        self.bytes[index] = value;
    }
}
