//! Why the level of a program isn't lowered: a reason for each edge of a branch or of a jump on which cycles of the worst case fall away, and for each loop.
//! Tests: crates/answer_tests/src/reasons.rt.
#![tactic(auto)]

ghost use Rattle.level_reasons.specs.Program.{ShownProgramsAreHeld};

mod edges;
mod lacks;
mod loops;
mod numbered;
mod program;
mod shown;
mod texts;
mod ways;

pub use program::reasons;
pub use shown::{EdgeLine, EdgeReason, LoopLine, LoopReason, Shown};
pub use texts::reasons_text;

/// A program that has reasons is one that `hold` stores, at the same level and with the same worst cycles.
pub fn shown_programs_are_held()
    ensures { ShownProgramsAreHeld }
{}
