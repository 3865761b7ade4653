//! The edges of a program's control-flow graph.

/// What kind of edge: a branch taken or untaken, a jump, the way to the next instruction, the way back behind a call
/// that returns, or an end. An end leads to no node of the function: a return, an exit, a breakpoint, or a call whose
/// run ends within the called function.
#[derive(Clone, Copy, Debug, PartialEq, Eq)]
pub enum EdgeKind {
    Taken,
    Untaken,
    Jump,
    Next,
    CallNext,
    End,
}

/// An edge of a control-flow graph. `at` and `to` are addresses of instructions; of an `End` edge `to` is `at`.
#[derive(Clone, Copy, PartialEq, Eq)]
pub struct Edge {
    pub at: u32,
    pub kind: EdgeKind,
    pub to: u32,
}
