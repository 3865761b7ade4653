//! Whether runs of an image are tidy, as `stack_laws` says it: whether no doubtful step changes a word of the stack that tables take to be kept, of a
//! function that runs or waits for a call to come back.
//! Tests: crates/pace_tool/cases/trusted.txt, by the comments of drafts.
#![tactic(auto)]

mod activations;
mod looking;
mod running;
mod writing;

pub use activations::Broken;
pub use running::{TidyRun, look_at_run};
