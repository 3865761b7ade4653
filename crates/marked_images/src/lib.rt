//! From the marks of a program's edges to its stored image: the numbers under the stored weights, the starting level, the stubs with their tables, and the file.
//! What is wanted of the marks, and the times by which jobs are to end at each level, come from the crates above.
//! Tests: crates/answer_tests/src/rewriting.rt and pacing.rt.
#![tactic(auto)]

mod counting;
mod numbers;
mod scaling;
mod stubs;

pub use counting::{EdgeCounts, count_edges};
pub use numbers::{EdgeMarks, marking_with, starting_level};
pub use scaling::{Program, Scaling, block_of, scaling_of, stored_file};
pub use stubs::{Marked, Marking, fragment_of, told_at};
