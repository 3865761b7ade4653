//! What each turn of a loop makes of a pointer that walks through memory, as a table.

use loop_file::LoopNote;
use scale_base::{Instr, LoadOp};
use stack_tables::StackClaim;
use wrapped_intervals::Arc;

/// How many intervals the ground of a walk through areas has at most.
pub const MOST_GROUND: usize = 16;

/// How many addresses there are at most at which the first turn of a walk over fixed bytes may access memory.
pub const MOST_STARTS: u64 = 65_536;

/// A value by the two numbers that stood in the two places when the header was last come to: so many times each, and a number of the
/// interval more, modulo 2^32.
#[derive(Clone, Copy)]
pub struct Trace {
    pub firsts: u32,
    pub seconds: u32,
    pub more: Arc,
}

/// A register, or a word of the stack by its number.
#[derive(Clone, Copy)]
pub enum WalkPlace {
    Register(u8),
    Word(u32),
}

/// What is known of a word of the stack by its number.
#[derive(Clone, Copy)]
pub struct WordTrace {
    pub number: u32,
    pub trace: Trace,
}

/// What is looked for: what loads of this kind give, as far as it is in the interval.
#[derive(Clone, Copy)]
pub struct Sought {
    pub op: LoadOp,
    pub wanted: Arc,
}

/// Why a loop can't turn often: each turn accesses memory where a pointer points, and moves it on, by so many bytes at least. The pointer is
/// so many times what stands in the first place and so many times what stands in the second one; with one place alone, the second is the
/// same with the factor 0.
#[derive(Drop)]
pub struct WalkTable {
    pub first: WalkPlace,
    pub first_factor: u32,
    pub second: WalkPlace,
    pub second_factor: u32,
    /// How far behind the pointer of the turn's start the access is, in bytes, modulo 2^32.
    pub at: u32,
    /// Whether the pointer moves down.
    pub down: bool,
    /// By how many bytes each turn moves it at least.
    pub least: u32,
    /// How many more than that at most.
    pub spread: u32,
    /// How many bytes an interval of the ground has at most, with a step behind it.
    pub width: u32,
    /// The interval of the addresses that are accessed, where one is known.
    pub place: Option<Arc>,
    /// That of the addresses that the first turn accesses.
    pub start: Option<Arc>,
    /// Where something is sought: each access is a load of that kind, and the turn goes on only if it gives what is sought.
    pub sought: Option<Sought>,
    /// Intervals of addresses that hold all that may be accessed there, each farther from the others than a step; where something is sought,
    /// those of its walks over fixed bytes.
    pub ground: Vec<Arc>,
    /// By node: whether it is code of the loop.
    pub body: Vec<bool>,
    /// By node, what is known of the 32 registers, or nothing.
    pub rows: Vec<Vec<Option<Trace>>>,
    /// By node, what is known of words of the stack, each one once.
    pub words: Vec<Vec<WordTrace>>,
    /// By node: whether memory was accessed there since the header was last come to, and gave what is sought.
    pub touched: Vec<bool>,
    /// By node: the register with what the load there gave since then.
    pub holders: Vec<Option<u8>>,
    /// By node: whether it may run while a call from the loop is open.
    pub quiet: Vec<bool>,
}

/// A table for a noted loop of a program with its tables, and the number of the header's node.
#[derive(Clone, Copy)]
pub struct WalkCase<'a> {
    pub claim: &'a StackClaim<'a>,
    pub note: &'a LoopNote,
    pub header: usize,
    pub table: &'a WalkTable,
}

/// A step that is no call: its instruction, the number of its node, and that of the node to which it leads.
#[derive(Clone, Copy)]
pub struct Step {
    pub instr: Instr,
    pub from: usize,
    pub to: usize,
}

/// A call: its instruction, the number of its node, and that of the node at which the called function begins.
#[derive(Clone, Copy)]
pub struct Call {
    pub instr: Instr,
    pub from: usize,
    pub entry: usize,
}
