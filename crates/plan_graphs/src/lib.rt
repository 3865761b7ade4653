//! The graph of a program's reached code as it is drawn: its basic blocks with what is left of the worst case behind them, its loops, the marks of its edges and the walk
//! that takes the worst cycles.
//! Tests: crates/answer_tests/src/drawing.rt.
#![tactic(auto)]

mod blocks;
mod edges;
mod functions;
mod loops;
mod marks;
mod named;
mod nests;
mod plan;
mod program;
mod sketch;

pub use plan::{
    DrawnBlock, DrawnCall, DrawnEdge, DrawnFunction, DrawnLoop, DrawnMark, Leads, PlaceName,
    PlanGraph,
};
pub use program::draw_plan;
