//! The fitting of a program to inputs.

ghost use Rattle.std.specs.Prelude.{◌≡◌, ◌≤◌, ◌-◌, length, map, count_by, IfOk};
ghost use Rattle.std.specs.List.{All};
ghost use Rattle.marked_images.specs.Promise.{IsStoredSafely};
ghost use Rattle.pace_fit.specs.Fitting.{IsChosenUseful, IsFitted, IsRewriteEnergy};
ghost use Rattle.pace_fit.specs.Finding.{AreLoaded, IsPrepared, counted_inputs, given_inputs};

use crate::bounds::least_over;
use crate::choosing::chosen;
use crate::preparing::Prepared;
use gain_tuner::{Files, GivenFiles, count_of, held_trial, trial_from};
use paced_images::Proposal;
use run_progress::{Part, Progress};
use scale_base::{FILE_LIMIT, IMAGE_LIMIT, NoMemory, Summary};
use scaler::rewrite;
use std::alloc::Global;

/// The choice of a fitting, in numbers.
#[derive(Clone, Copy, PartialEq, Eq)]
pub struct Fitted {
    /// The number of the chosen candidate: 0 is the image that runs at one level, k + 1 that of proposal k.
    pub candidate: u32,
    /// The summary of the chosen candidate.
    pub summary: Summary,
    /// The inputs that count.
    pub inputs: u32,
    /// The given inputs that don't count.
    pub left_out: u32,
    /// The energy of the choice over the inputs that count, in energy units.
    pub energy: u128,
    /// The energy of the image that runs at one level over the same inputs.
    pub hold_energy: u128,
    /// The energy of the image that `rewrite` stores over the same inputs, unless it is refused or a run is out of steps.
    pub rewrite_energy: Option<u128>,
    /// What one who knows each run's cycles beforehand takes at least over the same inputs, with changes of level for nothing.
    pub least_energy: u128,
}

/// How many inputs count, by their flags.
fn inputs_of(flags: &[bool]) -> u32
    requires { length flags.now ≤ 64 }
    ensures { result ≡ count_by (λ flag. flag) flags.now }
{
    count_of(flags) as u32
}

/// How many don't.
fn left_out_of(flags: &[bool]) -> u32
    requires { length flags.now ≤ 64 }
    ensures { result ≡ length flags.now - count_by (λ flag. flag) flags.now }
{
    (flags.len() - count_of(flags)) as u32
}

/// The energy of the image that `rewrite` stores on the inputs that count, unless it is out.
fn rewritten_over<P: Progress>(
    alloc: Global,
    files: &Files<'_>,
    progress: &mut P,
) -> Result<Option<u128>, NoMemory>
    requires { AreLoaded files.now }
    ensures { IfOk result (IsRewriteEnergy files.now.image.now files.now.machine.now files.now.loops.now (counted_inputs files.now)) }
{
    progress.next(Part::Candidate);
    let made = rewrite(alloc, files.image, files.machine, files.loops);
    match trial_from(alloc, files, 0, made, progress)? {
        Some(trial) => Ok(Some(trial.energy)),
        None => Ok(None),
    }
}

/// The choice among the candidates of a prepared program, with its numbers.
fn fit<P: Progress>(
    alloc: Global,
    files: &Files<'_>,
    prepared: &Prepared,
    proposals: &[Proposal],
    progress: &mut P,
) -> Result<(Vec<u8>, Fitted), NoMemory>
    requires files { AreLoaded files.now }
    requires prepared { IsPrepared files.now.image.now files.now.machine.now files.now.loops.now (given_inputs files.now) prepared.now }
    requires proposals { length proposals.now ≤ 64 }
    ensures fitted { IfOk result (λ given. IsFitted files.now.image.now files.now.machine.now files.now.loops.now
        (given_inputs files.now) proposals.now given.0.items given.1) }
    ensures saves { IfOk result (λ given. given.1.energy ≤ given.1.hold_energy) }
    ensures useful { IfOk result (λ given. IsChosenUseful files.now.image.now files.now.machine.now files.now.loops.now proposals.now
        given.1.candidate) }
    ensures safe { IfOk result (λ given. IsStoredSafely files.now.image.now files.now.machine.now files.now.loops.now
        given.0.items given.1.summary) }
{
    // The one that runs at one level, those of the proposals, and what `rewrite` stores.
    progress.begin(Part::Candidate, proposals.len() + 2);
    let stored = Vec::from_slice(alloc, &prepared.stored)?;
    let first = held_trial(alloc, files, (stored, prepared.summary), progress)?;
    let hold_energy = first.energy;
    let best = chosen(alloc, files, proposals, first, progress)?;
    let rewrite_energy = rewritten_over(alloc, files, progress)?;
    let least_energy = least_over(&prepared.power, &prepared.endings);
    let inputs = inputs_of(files.flags);
    let left_out = left_out_of(files.flags);
    let fitted = Fitted {
        candidate: best.candidate,
        summary: best.summary,
        inputs,
        left_out,
        energy: best.energy,
        hold_energy,
        rewrite_energy,
        least_energy,
    };
    Ok((best.stored, fitted))
}

/// Of the image that `hold` stores and the images that `pace` makes of the proposals the one whose runs take the least energy on the inputs
/// that count, of several the first, and the numbers of that choice.
///
/// An input counts where the original run exits within the machine file's steps and is kept. Candidate 0 is what `hold` stores, candidate
/// k + 1 what `pace` makes of proposal k. A candidate is out where it is refused, where some mark of it can lower nothing in its image, or
/// where its run on an input that counts is out of steps. Where no input counts, all energies are 0, and the choice is the first proposal of
/// which an image is made that has no such mark, or else what `hold` stores. Energies are in the machine file's energy units.
///
/// There is one run at a time in memory, and one candidate beside the best so far. How far it is is told. The files have at most the bytes that the program
/// loads: 4,194,304 of an image, 1,048,576 of each other file and of an input.
pub fn choose<P: Progress>(
    alloc: Global,
    given: &GivenFiles<'_>,
    prepared: &Prepared,
    proposals: &[Proposal],
    progress: &mut P,
) -> Result<(Vec<u8>, Fitted), NoMemory>
    requires image { length given.now.image.now ≤ IMAGE_LIMIT }
    requires machine { length given.now.machine.now ≤ FILE_LIMIT }
    requires loops { length given.now.loops.now ≤ FILE_LIMIT }
    requires few { length given.now.inputs.now ≤ 64 }
    requires inputs { All (λ input. length input.items ≤ FILE_LIMIT) given.now.inputs.now }
    requires prepared { IsPrepared given.now.image.now given.now.machine.now given.now.loops.now
        (map (λ input. input.items) given.now.inputs.now) prepared.now }
    requires proposals { length proposals.now ≤ 64 }
    ensures fitted { IfOk result
        (λ fitted. IsFitted given.now.image.now given.now.machine.now given.now.loops.now (map (λ input. input.items) given.now.inputs.now)
        proposals.now fitted.0.items fitted.1) }

    // The choice never takes more than the image that runs at one level.
    ensures saves { IfOk result (λ fitted. fitted.1.energy ≤ fitted.1.hold_energy) }

    // Each mark of the chosen proposal can lower a level in the stored image.
    ensures useful { IfOk result (λ fitted. IsChosenUseful given.now.image.now given.now.machine.now given.now.loops.now proposals.now
        fitted.1.candidate) }

    // On each input on which the original run exits and is kept, the stored run keeps the promise.
    ensures safe { IfOk result (λ fitted. IsStoredSafely given.now.image.now given.now.machine.now given.now.loops.now fitted.0.items
        fitted.1.summary) }
{
    let files = Files {
        image: given.image,
        machine: given.machine,
        loops: given.loops,
        inputs: given.inputs,
        flags: &prepared.flags,
    };
    fit(alloc, &files, prepared, proposals, progress)
}
