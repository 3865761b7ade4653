//! The jumps of an image through registers, and the tables that they read their targets from, as gcc and clang make them of a switch: proposals, of which
//! nothing is promised.
//! Tests: crates/graph_tests/src/table_jumps.rt.
#![tactic(auto)]

mod addresses;
mod copies;
mod places;
mod plain;
mod reasons;
mod rounds;
mod tables;
mod tracing;

pub use places::stands_at;
pub use plain::push_jump;
pub use reasons::{OpenJump, Reason};
pub use rounds::{FoundJump, FoundJumps, find_jumps};
