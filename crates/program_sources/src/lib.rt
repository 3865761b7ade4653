//! What the files of a program are: its machine, its image and the notes of its loops, or the first refusal of one of them.
//! The order of these refusals stands here alone (specs/Sources.antt). Tests: crates/answer_tests/src/rewriting.rt.
#![tactic(auto)]

mod reading;

pub use reading::{OriginalImage, Sources};
