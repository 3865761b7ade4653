//! Where the worst cycles of a program go: a line for each function and each loop on a walk that takes them.
//! Tests: crates/answer_tests/src/explaining.rt.
#![tactic(auto)]

ghost use Rattle.worst_reports.specs.Explained.{ExplainedProgramsAreHeld};

mod explained;
mod program;
mod texts;

pub use explained::Explained;
pub use program::explain;
pub use texts::explained_text;
pub use worst_lines::{Line, Part};

/// A program whose worst cycles are explained is one that `hold` stores, with the same worst cycles.
pub fn explained_programs_are_held()
    ensures { ExplainedProgramsAreHeld }
{}
