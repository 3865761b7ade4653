//! What each turn of a loop makes of a register, of a word of the stack, or of what is left of the input, as a table.

use loop_file::LoopNote;
use scale_base::Instr;
use stack_tables::StackClaim;

/// What is known of a value by the number that stood in the counted place when the header was last come to: nothing; that it is more by a
/// number of the interval from the first on, with so many more, modulo 2^32; that it, and so much more, is at most that number shifted to the
/// right so many times; that it is at least that number and so much more; or that it is what a read answered since, an error number, or a
/// count of bytes which, with what is left of the input and so much more, is at most that number.
#[derive(Clone, Copy)]
pub enum Relation {
    Unknown,
    Ahead(u32, u32),
    Below(u32, u32),
    Above(u32),
    Read(u32),
}

/// What is counted in: a register, a word of the stack by its number, or the bytes that are left of the input.
#[derive(Clone, Copy)]
pub enum TurnPlace {
    Register(u8),
    Word(u32),
    Input,
}

/// How turns are counted: each moves a multiple of the number and a shift on, takes something away from the number, adds something to it,
/// where it is so much at least, or halves it, where it has at most so many bits.
#[derive(Clone, Copy)]
pub enum TurnKind {
    Moves(u32, u32),
    Lowers,
    Raises(u32),
    Halves(u32),
}

/// Why a loop can't turn often: so many times the least is at most the width. By node: whether it is code of the loop; the relations of the
/// registers, 32 of them, or none where nothing is known; that of the word that is counted in, or of what is left of the input; whether the
/// number at the header was not 0 where it stands; and whether it may run while a call from the loop is open.
#[derive(Drop)]
pub struct TurnTable {
    pub place: TurnPlace,
    pub kind: TurnKind,
    pub width: u32,
    pub least: u32,
    /// What is so of what is counted in at the end of each turn.
    pub end: Relation,
    pub body: Vec<bool>,
    pub rows: Vec<Vec<Relation>>,
    pub own: Vec<Relation>,
    pub used: Vec<bool>,
    pub quiet: Vec<bool>,
}

/// A table for a noted loop of a program with its tables, the number of the header's node, and how many bytes an input has at most, where
/// that is told.
#[derive(Clone, Copy)]
pub struct TurnCase<'a> {
    pub claim: &'a StackClaim<'a>,
    pub note: &'a LoopNote,
    pub header: usize,
    pub table: &'a TurnTable,
    pub most: Option<u32>,
}

/// A step that is no call: its instruction, the number of its node, and that of the node to which it leads.
#[derive(Clone, Copy)]
pub struct Step {
    pub instr: Instr,
    pub from: usize,
    pub to: usize,
}

/// A call: its instruction, the number of its node, and that of the node at which the called function begins.
#[derive(Clone, Copy)]
pub struct Call {
    pub instr: Instr,
    pub from: usize,
    pub entry: usize,
}
