//! The law of bounds in versioned images: where the run of the original keeps its loops, that of the versioned image keeps its own. Over the
//! definitions alone.
//! Tests: none, since nothing of it runs.
#![tactic(auto)]

ghost use Rattle.copy_bounds.specs.Laws.{VersionedExitsAreKept, VersionedRunsKeepBounds};

/// Where the run of the original is kept by its loops, that of the versioned image is kept by its own: each has a bound that every run keeps, or
/// copies a loop of the original whose bound is no greater. So where the original exits, the versioned image does, at the end of a kept run.
pub fn versions_keep_bounds()
    ensures kept { VersionedRunsKeepBounds }
    ensures exits { VersionedExitsAreKept }
{}
