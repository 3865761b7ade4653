//! Laws of the machine and of the text of an image, over the definitions alone.
//! Tests: none, since nothing of it runs.
#![tactic(auto)]

mod runs;
mod texts;

pub use runs::{an_empty_key_changes_no_run, registers_along_runs, runs_without_a_key};
pub use texts::{text_ranges_are_aligned, text_words_are_loaded};
