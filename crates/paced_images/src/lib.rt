//! Images whose switches of level stand on chosen edges, whose chosen loops go to the lowest level from a count of turns on, and whose levels keep budgets.
//! Tests: crates/answer_tests/src/pacing.rt.
#![tactic(auto)]

mod budgeted;
mod due;
mod marks;
mod noted;
mod pacing;
mod programs;
mod proposal;
mod proposed;
mod useful;
mod wanted;

pub use pacing::pace;
pub use programs::program_of;
pub use proposal::Proposal;
pub use proposed::pace_useful;
pub use useful::{KeptMarks, useful_marks};
pub use wanted::{ChosenMarks, SwitchSite};
