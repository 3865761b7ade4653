//! The choice among the candidates.

ghost use Rattle.std.specs.Prelude.{◌≡◌, ◌≤◌, ◌<◌, [], length, IfOk};
ghost use Rattle.marked_images.specs.Promise.{IsStoredSafely};
ghost use Rattle.pace_fit.specs.Fitting.{IsCheapestFit, IsChosen, IsFirstBuilt};
ghost use Rattle.pace_fit.specs.Finding.{AreLoaded, IsHeldTrial, IsSafe, counted_inputs};

use crate::trials::trial_of;
use gain_tuner::{Files, Trial, cheaper, count_of};
use paced_images::Proposal;
use run_progress::Progress;
use scale_base::NoMemory;
use std::alloc::Global;

/// The candidate of the least energy, of several the first, from the image that runs at one level on.
fn cheapest<P: Progress>(
    alloc: Global,
    files: &Files<'_>,
    proposals: &[Proposal],
    held: Trial,
    progress: &mut P,
) -> Result<Trial, NoMemory>
    requires files { AreLoaded files.now }
    requires proposals { length proposals.now ≤ 64 }
    requires held { IsHeldTrial files.now held }
    ensures fit { IfOk result (λ t. IsCheapestFit files.now.image.now files.now.machine.now files.now.loops.now (counted_inputs files.now)
        proposals.now t.candidate t.stored.items t.summary t.energy) }
    ensures saves { IfOk result (λ t. t.energy ≤ held.energy) }
    ensures safe { IfOk result (IsSafe files.now) }
{
    let mut best = held;
    for (k, proposal) in proposals.iter().enumerate() {
        best = cheaper(
            best,
            trial_of(alloc, files, proposal, k as u32 + 1, progress)?,
        );
    }
    Ok(best)
}

/// The image of the first proposal of which one can be built, or else the one that runs at one level.
fn first_built<P: Progress>(
    alloc: Global,
    files: &Files<'_>,
    proposals: &[Proposal],
    held: Trial,
    progress: &mut P,
) -> Result<Trial, NoMemory>
    requires files { AreLoaded files.now }
    requires proposals { length proposals.now ≤ 64 }
    requires held { IsHeldTrial files.now held }
    requires none { counted_inputs files.now ≡ [] }
    ensures first { IfOk result (λ t. IsFirstBuilt files.now.image.now files.now.machine.now files.now.loops.now
        proposals.now t.candidate t.stored.items t.summary) }
    ensures energy { IfOk result (λ t. t.energy ≡ 0) }
    ensures safe { IfOk result (IsSafe files.now) }
{
    for (k, proposal) in proposals.iter().enumerate() {
        if let Some(trial) = trial_of(alloc, files, proposal, k as u32 + 1, progress)? {
            return Ok(trial);
        }
    }
    Ok(held)
}

/// The choice: by the energies where some input counts, by the order of the proposals where none does.
pub fn chosen<P: Progress>(
    alloc: Global,
    files: &Files<'_>,
    proposals: &[Proposal],
    held: Trial,
    progress: &mut P,
) -> Result<Trial, NoMemory>
    requires files { AreLoaded files.now }
    requires proposals { length proposals.now ≤ 64 }
    requires held { IsHeldTrial files.now held }
    ensures chosen { IfOk result (λ t. IsChosen files.now.image.now files.now.machine.now files.now.loops.now (counted_inputs files.now)
        proposals.now t.candidate t.stored.items t.summary t.energy) }
    ensures saves { IfOk result (λ t. t.energy ≤ held.energy) }
    ensures safe { IfOk result (IsSafe files.now) }
{
    if count_of(files.flags) == 0 {
        first_built(alloc, files, proposals, held, progress)
    } else {
        cheapest(alloc, files, proposals, held, progress)
    }
}
