//! Where the worst cycles of a program go: a walk that takes them, and what is counted along it by function and by loop.
//! Tests: crates/graph_tests/src/walks.rt.
#![tactic(auto)]

mod counts;
mod fits;
mod keys;
mod own;
mod parts;
mod search;
mod sums;
mod taken;
mod tallies;
mod times;
mod walk;
mod whole;
mod worst;

pub use counts::WalkCounts;
pub use own::OwnCycles;
pub use parts::Parts;
pub use search::Known;
pub use walk::{Proposal, count_walk};
pub use whole::{WholeCycles, whole_cycles};
pub use worst::worst_walk;
