//! The law of versioned images: what their runs are, of runs of the original, over the definitions alone.
//! Tests: none, since nothing of it runs.
#![tactic(auto)]

ghost use Rattle.loop_versions.specs.Follows.{VersionedRunsFollow};
ghost use Rattle.version_laws.specs.Exits.{ExitedRunsStayOutside, VersionedRunsExit};

/// The versioned image follows each run of the original that stays outside the block, at some number of its own steps.
pub fn versioned_runs_follow()
    ensures { VersionedRunsFollow }
{}

/// A run of the original that exits stays outside. So where the original exits, the versioned image does, with the same status and output.
pub fn versioned_runs_exit()
    ensures outside { ExitedRunsStayOutside }
    ensures alike { VersionedRunsExit }
{}
