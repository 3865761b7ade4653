//! The control-flow graph of a program's reached code: nodes by address, edges, functions, calls, basic blocks and the weights of edges.
//! `code_graph` builds it. Tests: crates/graph_tests/src/graphs.rt.
#![tactic(auto)]

mod ends;
mod graph;
mod lists;
mod weights;

pub use ends::{EdgeEnds, number_of};
pub use graph::CodeGraph;
pub use lists::GraphLists;
pub use weights::Weights;
