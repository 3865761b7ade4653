//! A page of memory.

ghost use Rattle.std.specs.Prelude.{◌≡◌, vec_len};

use crate::page_bytes::put_bytes;

/// What a page says of all its bytes.
#[derive(Clone, Copy, PartialEq, Eq)]
pub enum PageUse {
    /// Each byte may be read, and none written or fetched.
    Readable,
    /// Each byte may be read and written, and none fetched.
    Writable,
    /// Each byte may be fetched, and none read or written.
    Text,
    /// The ranges say it, byte by byte.
    Mixed,
}

impl PageUse {
    ghost use Rattle.std.specs.Prelude.{◌≡◌};
    ghost use Rattle.flat_memory.specs.Pages.{reads_in, writes_in, fetches_in};

    /// Whether its bytes may be read, if it says so.
    #[inline]
    pub fn reads(self) -> Option<bool>
        ensures { result ≡ reads_in self }
    {
        match self {
            PageUse::Readable | PageUse::Writable => Some(true),
            PageUse::Text => Some(false),
            PageUse::Mixed => None,
        }
    }

    /// Whether its bytes may be written, if it says so.
    #[inline]
    pub fn writes(self) -> Option<bool>
        ensures { result ≡ writes_in self }
    {
        match self {
            PageUse::Writable => Some(true),
            PageUse::Readable | PageUse::Text => Some(false),
            PageUse::Mixed => None,
        }
    }

    /// Whether its bytes may be fetched, if it says so.
    #[inline]
    pub fn fetches(self) -> Option<bool>
        ensures { result ≡ fetches_in self }
    {
        match self {
            PageUse::Text => Some(true),
            PageUse::Readable | PageUse::Writable => Some(false),
            PageUse::Mixed => None,
        }
    }
}

/// The bytes of 4,096 addresses, and what the page says of them.
#[derive(Drop)]
pub struct Page {
    pub bytes: Vec<u8>,
    pub whole: PageUse,
    ghost size: { vec_len bytes ≡ 4096 },
}

impl Page {
    ghost use Rattle.std.specs.Prelude.{◌≡◌, ◌<◌, ◌+◌, ◌≤◌, slice_index};
    ghost use Rattle.scale_base.specs.State as states;
    ghost use Rattle.flat_memory.specs.Pages.{HasBytes, put_byte, put_word};

    /// The byte at a place of the page.
    #[inline]
    pub fn byte(&self, place: usize) -> u8
        requires { place < 4096 }
        ensures { result ≡ slice_index self.now.bytes.items place }
    {
        self.bytes[place]
    }

    #[inline]
    pub fn set_byte(&mut self, place: usize, value: u8)
        requires { place < 4096 }
        ensures { HasBytes self.old self.new (put_byte self.old.bytes.items place value) }
    {
        self.bytes[place] = value;
    }

    /// The word that begins at a place of the page.
    #[inline]
    pub fn word(&self, place: usize) -> u32
        requires { place + 4 ≤ 4096 }
        ensures { result ≡ states.word_at (slice_index self.now.bytes.items) place }
    {
        u32::from_le_bytes([
            self.bytes[place],
            self.bytes[place + 1],
            self.bytes[place + 2],
            self.bytes[place + 3],
        ])
    }

    #[inline(always)]
    #[tactic(auto, using(crate::proofs::BlockLaws::whole_again))]
    pub fn set_word(&mut self, place: usize, value: u32)
        requires { place + 4 ≤ 4096 }
        ensures { HasBytes self.old self.new (put_word self.old.bytes.items place value) }
    {
        put_bytes(&mut self.bytes, place, value);
    }
}
