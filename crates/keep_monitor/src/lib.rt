//! Watches the steps of a run: whether it keeps the bounds of its loops and its return addresses, and what it broke first.
//! Tests: crates/machine_tests/src/watched_runs.rt.
#![tactic(auto)]

ghost use Rattle.keep_monitor.specs.Laws.{WatchedRunsAreKept};

mod counter;
mod headers;
mod monitor;
mod slots;
mod steps;

pub use counter::LoopCounter;
pub use monitor::Monitor;
pub use scale_base::Kept;

/// Watching the run of an image finds nothing broken exactly as long as the run is kept.
pub fn watched_runs_are_kept()
    ensures { WatchedRunsAreKept }
{}
