//! Whether the code of a program shows bounds of loops that count in registers or in words of the stack, and that its returns come back.
//! Tests: crates/graph_tests/src/stack_bounds.rt.
#![tactic(auto)]

mod certificates;
mod counters;
mod edges;
mod reading;
mod returning;
mod shown;

pub use certificates::StackCertificate;
pub use counters::StackCounter;
pub use returning::comes_back;
pub use shown::is_shown;
