//! Builds the control-flow graph of a program's reached code, a `CodeGraph`; or why the code is refused.
//! Tests: crates/graph_tests/src/graphs.rt.
#![tactic(auto)]

mod blocks;
mod build;
mod edges;
mod ends;
mod nodes;
mod reach;
mod recursion;
mod refusals;

pub use build::build_graph;
pub use flow_graph::{CodeGraph, Weights};
