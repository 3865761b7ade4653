//! Fragments of code that stand in an image of other make.

/// A fragment that is found in a stub. A counter is the number of its word in the window; a table is told by the address of its row 0.
#[derive(Clone, Copy, PartialEq, Eq)]
pub enum ForeignFragment {
    /// The level is chosen anew by the word's entries.
    Switch { word: u32 },
    /// The level is chosen by the count, which begins anew.
    Exit { counter: u16, shift: u8, table: u32 },
    /// The count begins anew.
    Reset { counter: u16 },
    /// The count is one more.
    Count { counter: u16 },
}
