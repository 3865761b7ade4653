//! Counters of loops, in registers, in words of the stack and in what is left of the input, and pointers that walk through memory, as certificates
//! of their bounds; and heights of calls: proposals, which `shown_bounds` accepts or refuses. Nothing is promised of them.
//! Tests: crates/graph_tests/src/stack_bounds.rt.
#![tactic(auto)]

mod adding;
mod candidates;
mod certificates;
mod grounds;
mod heights;
mod limits;
mod quiet;
mod relating;
mod scope;
mod searches;
mod stores;
mod traced;
mod turning;
mod turns;
mod unturned;
mod walking;
mod walks;

pub use certificates::{LoopProgram, find_certificate, loops_within};
pub use heights::heights_of;
