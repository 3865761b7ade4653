//! The trials of the images of proposals.

ghost use Rattle.std.specs.Prelude.{IfOk};
ghost use Rattle.pace_fit.specs.Finding.{AreLoaded, IsProposalTried};

use gain_tuner::{Files, Trial, trial_from};
use paced_images::{Proposal, pace_useful};
use run_progress::{Part, Progress};
use scale_base::{NoMemory, Stop};
use std::alloc::Global;

/// The trial of the image of a proposal, unless it is out. How far it is is told.
pub fn trial_of<P: Progress>(
    alloc: Global,
    files: &Files<'_>,
    proposal: &Proposal,
    candidate: u32,
    progress: &mut P,
) -> Result<Option<Trial>, NoMemory>
    requires { AreLoaded files.now }
    ensures { IfOk result (IsProposalTried files.now proposal.now candidate) }
{
    progress.next(Part::Candidate);
    match pace_useful(alloc, files.image, files.machine, files.loops, proposal) {
        Ok(Some(made)) => trial_from(alloc, files, candidate, Ok(made), progress),
        Ok(None) => Ok(None),
        Err(Stop::Refused(_)) => Ok(None),
        Err(Stop::Memory) => Err(NoMemory),
    }
}
