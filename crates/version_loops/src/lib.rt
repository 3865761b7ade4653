//! The loop file of a versioned image, by that of its original: each loop has the bound that its draft proves, or it copies a loop of the
//! original and has that one's bound.
//! Tests: crates/version_tests/src/files.rt.
#![tactic(auto)]

ghost use Rattle.version_loops.specs.VersionFile.{VersionFilesAreKept};

mod checking;
mod files;
mod proposing;

pub use files::{VersionedProgram, version_file};

/// Where the original exits at the end of a run that keeps its loop file, the version exits alike, at the end of a run that keeps its own.
pub fn version_files_are_kept()
    ensures { VersionFilesAreKept }
{}
