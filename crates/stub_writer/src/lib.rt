//! Writes the code of stubs: for each marked branch or jump its fragments, the way on, and the jump that takes its place.
//! Tests: crates/graph_tests/src/stubs.rt.
#![tactic(auto)]

mod block;
mod codes;
mod site;
mod stubs;
mod ways;
mod words;

pub use block::{block_len, emit};
pub use codes::{count_code, exit_code, lowest_code, reset_code, switch_code, tally_code};
pub use site::{EdgeList, FragmentList, StubBlock, StubEdge, StubSite};
