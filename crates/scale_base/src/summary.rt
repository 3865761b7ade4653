//! The numbers that a command prints.

/// What a rewriting found, in numbers.
#[derive(Clone, Copy, PartialEq, Eq)]
pub struct Summary {
    /// The starting level.
    pub start: u8,
    /// The worst cycles of the program.
    pub worst: u64,
    /// The worst cycles in time units at the starting level.
    pub time: u128,
    /// The deadline, in time units.
    pub deadline: u64,
    /// The most cycles that stubs add to a run.
    pub stub_cycles: u64,
    /// Edges with a switch of level.
    pub switch_edges: u32,
    /// Edges that leave a counted loop with a switch of level.
    pub exit_edges: u32,
    /// Edges that count a turn of a loop.
    pub count_edges: u32,
    /// Bytes of the stub block.
    pub stub_bytes: u32,
}

/// What was lowered: how many far jumps and how many noted jumps, the bytes of the block, and the greatest depth of a tree.
#[derive(Clone, Copy, PartialEq, Eq)]
pub struct Lowered {
    pub pairs: u32,
    pub jumps: u32,
    pub block: u32,
    pub depth: u32,
}

/// The choice of a tuning, in numbers.
#[derive(Clone, Copy, PartialEq, Eq)]
pub struct Tuned {
    /// The number of the chosen candidate: 0 is the image that runs at one level.
    pub candidate: u32,
    /// The summary of the chosen candidate.
    pub summary: Summary,
    /// The inputs that count.
    pub inputs: u32,
    /// The given inputs that don't count.
    pub left_out: u32,
    /// The energy of the choice over the inputs that count, in energy units.
    pub energy: u128,
    /// The energy of the image that runs at one level over the same inputs.
    pub hold_energy: u128,
}
