//! The loops of a program's graph with their nesting, which the field calls a loop nesting forest: the type that holds them, and
//! what is said of them. `loop_tree` finds them.
//! Tests: crates/graph_tests/src/loops.rt.
#![tactic(auto)]

mod arcs;
mod numbers;
mod parts;
mod tree;

pub use arcs::plain_arcs;
pub use numbers::has_number;
pub use parts::LoopParts;
pub use tree::LoopTree;
