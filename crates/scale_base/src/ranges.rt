//! Stretches of addresses, and of places in a file.

ghost use Rattle.std.specs.Prelude.{◌≡◌, ◌+◌, ◌<◌, ◌^◌};
ghost use Rattle.scale_base.specs.Image.{is_in};
ghost use Rattle.scale_base.specs.Spans.{overlap};

/// The addresses from `from` up to `to`, which is left out.
#[derive(Clone, Copy, Debug, PartialEq, Eq)]
pub struct Range {
    pub from: u32,
    pub to: u32,
}

impl Range {
    /// Whether the address is one of them.
    pub fn contains(&self, at: u32) -> bool
        ensures { result ≡ is_in at self.now }
    {
        self.from <= at && at < self.to
    }
}

/// So many addresses, or places in a file, from one on. It may end past 2^32.
#[derive(Clone, Copy, PartialEq, Eq)]
pub struct Span {
    pub from: u32,
    pub len: u32,
}

impl Span {
    /// One past the last number.
    pub fn end(&self) -> u64
        ensures value { result ≡ self.now.from + self.now.len }
        ensures small { result < 2 ^ 33 }
    {
        u64::from(self.from) + u64::from(self.len)
    }

    /// Whether they share a number.
    pub fn overlaps(&self, other: Span) -> bool
        ensures { result ≡ overlap self.now other }
    {
        0 < self.len
            && 0 < other.len
            && u64::from(self.from) < other.end()
            && u64::from(other.from) < self.end()
    }
}

/// Addresses of text, and the place in the file where their bytes begin.
#[derive(Clone, Copy, PartialEq, Eq)]
pub struct TextPart {
    pub span: Span,
    pub place: u64,
}

/// The keyed segment: its addresses, and the level that a run starts at.
#[derive(Clone, Copy, Debug, PartialEq, Eq)]
pub struct Keyed {
    pub range: Range,
    pub start: u32,
}

/// The address of a word of text, and the word that takes its place.
#[derive(Clone, Copy, PartialEq, Eq)]
pub struct Patch {
    pub at: u32,
    pub word: u32,
}
