//! What an image takes that is fitted to inputs, with a loop file that is given or with a draft of its loops, and by which version of a loop it
//! takes less.
//! Tests: crates/pace_tool/cases/versions.txt, and `.ci/fits.py`, of the built program.
#![tactic(auto)]

mod choosing;
mod fits;
mod goal;
mod loop_files;
mod proposals;
mod trying;

pub use choosing::{ChosenVersion, choose_version};
pub use goal::FitGoal;
pub use proposals::proposals_of;
