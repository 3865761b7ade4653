//! The functions and the loops on a walk that takes the worst cycles, as lines, and their text.
//! Tests: crates/answer_tests/src/explaining.rt.
#![tactic(auto)]

mod lines;
mod shown;
mod sorted;
mod texts;

pub use lines::{Walked, walk_lines};
pub use shown::{Line, Part};
pub use texts::push_lines;
