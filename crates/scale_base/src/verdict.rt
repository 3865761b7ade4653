//! What a check of an image of other make answers.

/// Why an image is not known to be safe.
#[derive(Clone, Copy, PartialEq, Eq)]
pub enum Why {
    /// It is no image, by the number of the refusal.
    Image(u8),
    /// It has no keyed segment.
    NoKey,
    /// Its entry, its other segments or its text ranges are not the original's.
    Layout,
    /// The byte loaded at the address is not the original's.
    Byte(u32),
    /// The word at the address of the text isn't the original's, and isn't a jump to a multiple of 4 in the keyed segment in place of a
    /// reached branch or jump that links no register.
    Patch(u32),
    /// The stub of the instruction at the address is not in its form.
    Stub(u32),
    /// The counter is used, and counts no loop: its count doesn't stand once on each back edge of a loop and nowhere else, or its exit or
    /// reset not once on each edge that leaves the loop and nowhere else.
    Counter(u16),
    /// The worst cycles with the stubs are over 2^48.
    TooLong,
    /// The level of the keyed segment is none of the machine's: it, and how many levels there are.
    Start(u32, u32),
    /// The worst time at the level of the keyed segment, which is over the deadline, and the deadline, in time units.
    TooSlow(u128, u64),
    /// A table on an edge of the instruction at the address leads from the level to a higher one, or to a lower one that isn't in time or
    /// doesn't pay.
    Level(u32, u8),
}

/// What is found of an image that is safe, in numbers.
#[derive(Clone, Copy, PartialEq, Eq)]
pub struct Checked {
    /// The level of the keyed segment.
    pub start: u8,
    /// The worst cycles of the program with its stubs.
    pub worst: u64,
    /// The worst cycles in time units at the starting level.
    pub time: u128,
    /// The deadline, in time units.
    pub deadline: u64,
    /// The most cycles that stubs add to a run.
    pub stub_cycles: u64,
}

/// Whether an image is safe, or the first cause why it is not known to be.
#[derive(Clone, Copy, PartialEq, Eq)]
pub enum Verdict {
    Yes(Checked),
    No(Why),
}
