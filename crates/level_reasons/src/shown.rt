//! What is told of a program.

use scale_base::Edge;

/// Why a job at the starting level stays there on an edge, or to which level it goes.
#[derive(Clone, Copy, PartialEq, Eq)]
pub enum EdgeReason {
    /// It starts at the slowest level.
    AlreadySlowest,
    /// A switch to the next lower level isn't in time. Of the cycles that may be left before the edge, so many percent fall away on it, rounded down, and so many
    /// have to, rounded up.
    FallsShort { falls: u8, needed: u8 },
    /// A switch to the next lower level is in time, and the least cycles that are left behind the edge, if an end is ahead, save less than it takes.
    PaysNot { least: Option<u128> },
    /// A switch goes to this level.
    GoesTo { level: u8 },
}

/// An edge of a branch or of a jump, its slack in cycles, and its reason.
#[derive(Clone, Copy, PartialEq, Eq)]
pub struct EdgeLine {
    pub edge: Edge,
    pub slack: u64,
    pub reason: EdgeReason,
}

/// What a job at the starting level needs to go to the next lower level on a way out of a loop.
#[derive(Clone, Copy, PartialEq, Eq)]
pub enum LoopReason {
    /// It starts at the slowest level.
    AlreadySlowest,
    /// No edge of a branch or of a jump leaves the loop.
    NoWayOut,
    /// So many turns left, of those of its bound.
    NeedsTurns { needed: u32, bound: u32 },
    /// Even all turns of its bound aren't enough. On the way out that lacks the fewest cycles they give so many percent of the cycles that may be left before it,
    /// rounded down, and so many are needed, rounded up.
    Never { bound: u32, gives: u8, needed: u8 },
}

/// A loop by its number in the loop file, the address of its header, the most cycles of one turn, and its reason.
#[derive(Clone, Copy, PartialEq, Eq)]
pub struct LoopLine {
    pub number: u32,
    pub header: u32,
    pub turn: u64,
    pub reason: LoopReason,
}

/// The starting level of a program and its worst cycles; its edges of branches and of jumps that have slack, ascending by address; and its loops.
#[derive(Drop)]
pub struct Shown {
    pub start: u8,
    pub worst: u64,
    pub edges: Vec<EdgeLine>,
    pub loops: Vec<LoopLine>,
}
