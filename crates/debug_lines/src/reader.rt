//! Numbers and strings, one after another (DWARF 5, section 7.6 for those of variable length).

use elf_sections::{half, word};

/// A number of variable length has no more bytes.
const MOST_DIGITS: usize = 16;

/// What is still to be read.
#[derive(Clone, Copy)]
pub struct Reader<'a> {
    pub bytes: &'a [u8],
}

// The digits of a number of variable length: what they come to, the weight behind the last one, and the last one. Numbers are modulo 2^32.
#[derive(Clone, Copy)]
struct Digits {
    value: u32,
    weight: u32,
    last: u8,
}

impl<'a> Reader<'a> {
    /// The next bytes.
    pub fn take(&mut self, count: usize) -> Option<&'a [u8]> {
        let taken = self.bytes.get(..count)?;
        self.bytes = self.bytes.get(count..)?;
        Some(taken)
    }

    pub fn skip(&mut self, count: usize) -> Option<()> {
        self.bytes = self.bytes.get(count..)?;
        Some(())
    }

    pub fn byte(&mut self) -> Option<u8> {
        let byte = *self.bytes.first()?;
        self.skip(1)?;
        Some(byte)
    }

    pub fn half(&mut self) -> Option<u16> {
        Some(half(self.take(2)?, 0))
    }

    pub fn word(&mut self) -> Option<u32> {
        Some(word(self.take(4)?, 0))
    }

    // Digits of seven bits, the low ones first. The last one has no high bit.
    fn digits(&mut self) -> Option<Digits> {
        let mut value: u32 = 0;
        let mut weight: u32 = 1;
        for (k, byte) in self.bytes.iter().take(MOST_DIGITS).enumerate() {
            value = value.wrapping_add(u32::from(*byte % 128).wrapping_mul(weight));
            weight = weight.wrapping_mul(128);
            if *byte < 128 {
                self.skip(k.saturating_add(1))?;
                return Some(Digits {
                    value,
                    weight,
                    last: *byte,
                });
            }
        }
        None
    }

    /// A number without a sign (ULEB128), modulo 2^32.
    pub fn number(&mut self) -> Option<u32> {
        Some(self.digits()?.value)
    }

    /// A number with a sign (SLEB128), modulo 2^32.
    pub fn signed(&mut self) -> Option<u32> {
        let digits = self.digits()?;
        if digits.last < 64 {
            return Some(digits.value);
        }
        Some(digits.value.wrapping_sub(digits.weight))
    }

    /// A string, with the zero behind it and all that follows. It stands before what is read next.
    pub fn string(&mut self) -> Option<&'a [u8]> {
        let bytes = self.bytes;
        let length = bytes.iter().position(|byte| *byte == 0)?;
        self.skip(length.saturating_add(1))?;
        Some(bytes)
    }
}
