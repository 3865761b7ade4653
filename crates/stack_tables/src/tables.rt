//! Tables of what is known of the words of the stack, and of the registers that functions give back.

use wrapped_intervals::Arc;

/// Where a value comes from: so much more, modulo 2^32, than what a register had when the function began, or than what a word of the
/// function's stack holds.
#[derive(Clone, Copy, PartialEq, Eq)]
pub enum Name {
    OfBegin(u8, u32),
    OfWord(u32, u32),
}

/// What is known of a word of the stack: its interval, where its value comes from, and how far above the function's first x2 it points.
#[derive(Clone, Copy, PartialEq, Eq)]
pub struct Word {
    pub arc: Option<Arc>,
    pub name: Option<Name>,
    pub span: Option<Arc>,
}

/// How many numbers in memory a table has at most.
pub const MOST_CELLS: usize = 1_024;

/// A number in memory that is always in an interval: of so many bytes, 1, 2 or 4, from an address on, the lowest first.
#[derive(Clone, Copy, PartialEq, Eq)]
pub struct Cell {
    pub at: u32,
    pub width: u8,
    pub values: Arc,
}

/// Where a register, the teller, is 0, if `zero`, or where it isn't, otherwise, the register `about` is in an interval.
#[derive(Clone, Copy, PartialEq, Eq)]
pub struct Told {
    pub teller: u8,
    pub zero: bool,
    pub about: u8,
    pub arc: Arc,
}

/// How many of them a node has at most.
pub const MOST_TOLD: usize = 8;

/// What register `value` holds, times 2 to the power of `bits` times what register `count` holds, is below 2 to the power of `below`.
#[derive(Clone, Copy, PartialEq, Eq)]
pub struct Dwindling {
    pub value: u8,
    pub count: u8,
    pub bits: u8,
    pub below: u8,
}

/// How many of them a node has at most.
pub const MOST_DWINDLING: usize = 4;

/// How many intervals of addresses a table has at most.
pub const MOST_AREAS: usize = 64;

/// How many parts of memory a table has at most whose bytes no store changes.
pub const MOST_PARTS: usize = 16;

/// Bytes that no store changes, from an address on.
#[derive(Drop)]
pub struct FixedPart {
    pub from: u32,
    pub bytes: Vec<u8>,
}

/// By node and register, before its instruction, where the value comes from and how far above the function's first x2 it points; by node
/// and number, the words of the function's stack, of which nothing is known behind the last; by function, what x2 has when it begins, and
/// which registers are at its returns what they were then; where the words of functions that wait for a call may be; and by node, whether
/// nothing is stored to those words from here on up to the function's return, in what is called neither. Wherever the run is, numbers in
/// memory that are always in an interval. By node, what registers tell of others, and which are divided while others count how often.
/// Intervals of addresses that hold all that may be loaded from or stored to. Bytes that no store changes. And by node, whether what is
/// stored is taken to miss all words of the stack that are kept, and by function and number, whether a word of its stack is one of those.
#[derive(Drop)]
pub struct StackTable {
    pub names: Vec<[Option<Name>; 32]>,
    pub spans: Vec<[Option<Arc>; 32]>,
    pub words: Vec<Vec<Word>>,
    pub begins: Vec<Option<Arc>>,
    pub restored: Vec<[bool; 32]>,
    pub place: Option<Arc>,
    pub spared: Vec<bool>,
    pub cells: Vec<Cell>,
    pub told: Vec<Vec<Told>>,
    pub dwindling: Vec<Vec<Dwindling>>,
    pub areas: Vec<Arc>,
    pub fixed: Vec<FixedPart>,
    pub doubtful: Vec<bool>,
    pub kept: Vec<[bool; 64]>,
}
