//! What the turns of a loop add to a register or a word of the stack at most, as a table.

use loop_file::LoopNote;
use scale_base::Instr;
use stack_tables::StackClaim;
use wrapped_intervals::Measure;

/// A multiple of a word of the stack, by its number, and a shift, modulo 2^32.
#[derive(Clone, Copy)]
pub struct CountedWord {
    pub number: u32,
    pub factor: u32,
    pub shift: u32,
}

/// What is counted in: a sum of registers, or a word of the stack.
#[derive(Clone, Copy)]
pub enum Counter {
    Registers(Measure),
    Word(CountedWord),
}

/// Why a loop turns often: where it is entered the counter is at most `first`, and each turn raises it by `most` at most. By node: whether it
/// is code of the loop, what its instruction adds, modulo 2^32, what those from the header up to it have added at most, and whether it may
/// run while a call from the loop is open.
#[derive(Drop)]
pub struct LowerTable {
    pub counter: Counter,
    pub first: u32,
    pub most: u32,
    pub body: Vec<bool>,
    pub adds: Vec<u32>,
    pub added: Vec<u32>,
    pub quiet: Vec<bool>,
}

/// A table for a noted loop of a program with its tables, and the number of the header's node.
#[derive(Clone, Copy)]
pub struct LowerCase<'a> {
    pub claim: &'a StackClaim<'a>,
    pub note: &'a LoopNote,
    pub header: usize,
    pub table: &'a LowerTable,
}

/// A step of an instruction that is no call, by the numbers of both nodes.
#[derive(Clone, Copy)]
pub struct Step {
    pub instr: Instr,
    pub from: usize,
    pub to: usize,
}
