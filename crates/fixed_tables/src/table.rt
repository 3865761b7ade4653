//! A table of words.

/// A table of words from which a jump reads its target: the address of its first word, how many bytes each begins behind the one before, how many there are,
/// and what the jump adds to a word, modulo 2^32: 0 where the words are addresses, else the address that they are relative to.
#[derive(Clone, Copy, PartialEq, Eq)]
pub struct Table {
    pub at: u32,
    pub step: u32,
    pub count: u32,
    pub base: u32,
}
