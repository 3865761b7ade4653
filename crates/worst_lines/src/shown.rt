//! What a line tells of a function or of a loop.

/// What a line is of, and how often a walk that takes the worst cycles goes there.
#[derive(Clone, Copy, PartialEq, Eq)]
pub enum Part {
    /// A function, and how often it is called: the program's once more than over edges.
    Function {
        calls: u64,
    },
    /// A loop by its number in the loop file, how often it is entered from outside, and how many back edges it takes in all.
    Loop {
        number: u32,
        entries: u64,
        turns: u64,
    },
}

/// A function or a loop on the walk: the address of its entry or of its header, in bytes, the place of that beside a symbol where there is one, the cycles of
/// its own edges, without those of loops within it and of functions that it calls, and the cycles with them.
#[derive(Drop)]
pub struct Line {
    pub part: Part,
    pub at: u32,
    pub place: Option<String>,
    pub own: u64,
    pub all: u64,
}
