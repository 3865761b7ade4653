//! What a run does by its level: its stretches of steps at one level, as at most 512 bars.
//! Tests: crates/answer_tests/src/run_pictures_rows.rt.
#![tactic(auto)]

ghost use Rattle.run_stretches.specs.Stretches.{BarsTakeTheRun};

mod bars;
mod drawing;
mod recording;

pub use bars::{BarEnd, NO_END};
pub use drawing::{RunBars, draw_run};

/// The bars of a run take together what the run takes.
pub fn bars_take_the_run()
    ensures { BarsTakeTheRun }
{}
