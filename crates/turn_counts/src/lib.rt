//! How often the loops of an image turn in its runs on inputs. Nothing is promised of it but that it is safe to run and ends, so that no wrong body is refused for
//! its answer.
//! Tests: crates/graph_tests/src/drafts.rt, by the comments of drafts.
#![tactic(auto)]

mod counter;
mod runs;

pub use counter::{LoopPlace, LoopTurns};
pub use runs::{Ending, Turns, count_turns};
