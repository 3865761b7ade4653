//! The texts of a drawn graph: the file for Graphviz, and the lines that count what is in it.
//! Tests: crates/answer_tests/src/drawing.rt.
#![tactic(auto)]

mod blocks;
mod clusters;
mod counts;
mod dot;
mod edges;
mod overview;
mod words;

pub use counts::plan_text;
pub use dot::plan_dot;
