//! Lowers images: near jumps in place of far ones, and trees of comparisons in place of jumps through registers whose targets are
//! listed. RISC-V Unprivileged ISA, RV32I.
//! Tests: crates/answer_tests/src/lowering.rt.
#![tactic(auto)]

mod block;
mod code;
mod far;
mod lowering;
mod runs;
mod trees;

pub use far::is_in_table;
pub use lowering::lower;
pub use runs::{
    lowered_answers_agree, lowered_images_are_safe, lowered_runs_follow, trees_find_targets,
};
