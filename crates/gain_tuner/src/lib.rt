//! The image of a program that takes the least energy on given inputs, of several that are safe.
//! Tests: crates/answer_tests/src/tuning.rt.
#![tactic(auto)]

mod agreeing;
mod candidates;
mod choosing;
mod spending;
mod tuning;

pub use agreeing::{tuned_images_are_safe, tunings_agree};
pub use choosing::{Files, GivenFiles, Trial, cheaper, held_trial, trial_from};
pub use scale_base::Tuned;
pub use spending::{counting_of, report_of};
pub use tuning::{count_of, tune, tune_with_progress};
