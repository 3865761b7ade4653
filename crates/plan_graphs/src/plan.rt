//! What is drawn of a program.

use scale_base::{Edge, Mark, Range};

/// A symbol, and how many bytes behind it.
#[derive(Drop)]
pub struct PlaceName {
    pub symbol: String,
    pub offset: u32,
}

/// Where an edge leads: to the block that begins at an address, back from its function, to an exit of the program, or nowhere. A call whose run ends within the called
/// function leads nowhere, as an EBREAK does.
#[derive(Clone, Copy, PartialEq, Eq)]
pub enum Leads {
    Block(u32),
    Return,
    Exit,
    Nowhere,
}

/// A mark of an edge, and the number from 0 of the counted loop that it is for.
#[derive(Clone, Copy, PartialEq, Eq)]
pub struct DrawnMark {
    pub mark: Mark,
    pub counted: Option<usize>,
}

/// A function that is called: its number, and the address of its entry.
#[derive(Clone, Copy, PartialEq, Eq)]
pub struct DrawnCall {
    pub function: usize,
    pub entry: u32,
}

/// An edge that starts at a block's last instruction: where it leads, the cycles that are left at most behind it, its marks, and how often the worst walk takes it.
#[derive(Drop)]
pub struct DrawnEdge {
    pub edge: Edge,
    pub leads: Leads,
    pub left: u64,
    pub marks: Vec<DrawnMark>,
    pub taken: u64,
}

/// A basic block: its addresses, the name of the first, its function, the loops round it, the outermost first, the cycles that are left at most behind it, the function
/// that its last instruction calls, and the edges that start there. Functions and loops are numbered from 0.
#[derive(Drop)]
pub struct DrawnBlock {
    pub range: Range,
    pub name: Option<PlaceName>,
    pub function: usize,
    pub around: Vec<usize>,
    pub left: u64,
    pub call: Option<DrawnCall>,
    pub edges: Vec<DrawnEdge>,
}

/// A function: its number from 0, the address of its entry, its name, the worst cycles of one call, and how often the worst walk calls it.
#[derive(Drop)]
pub struct DrawnFunction {
    pub number: usize,
    pub entry: u32,
    pub name: Option<PlaceName>,
    pub worst: u64,
    pub calls: u64,
}

/// A loop: its number from 0, the address of its header, its bound, the most cycles of one turn, its function, the loops round its header, the outermost first and itself among them, and
/// how many turns the worst walk takes.
#[derive(Drop)]
pub struct DrawnLoop {
    pub number: usize,
    pub header: u32,
    pub bound: u32,
    pub turn: u64,
    pub function: usize,
    pub around: Vec<usize>,
    pub turns: u64,
}

/// The graph of a program's reached code: its worst cycles, whether its loops can be counted as `rewrite` does, whether a walk that takes the worst cycles was found, its
/// functions, its loops, and its basic blocks in ascending order.
#[derive(Drop)]
pub struct PlanGraph {
    pub worst: u64,
    pub countable: bool,
    pub walked: bool,
    pub functions: Vec<DrawnFunction>,
    pub loops: Vec<DrawnLoop>,
    pub blocks: Vec<DrawnBlock>,
}
