//! The choice among the candidates.

ghost use Rattle.std.specs.Prelude.{◌≡◌, ◌≤◌, ◌<◌, length, map, Ok, IfOk};
ghost use Rattle.scaler.specs.Held.{IsHeld};
ghost use Rattle.scaler.specs.Prepared.{IsPrepared};
ghost use Rattle.marked_images.specs.Promise.{IsStoredSafely};
ghost use Rattle.gain_tuner.specs.Finding.{IsSafeTrial, IsSafeTrialOf, IsTrialOr, IsTried, IsSafeChoice, Made, cheaper_of};
ghost use Rattle.gain_tuner.specs.Spending.{counts};

use crate::candidates::candidate_of;
use crate::spending::spent_over;
use run_progress::{Part, Progress};
use scale_base::{FILE_LIMIT, IMAGE_LIMIT, NoMemory, Stop, Summary};
use scaler::PreparedProgram;
use std::alloc::Global;

/// How many candidates there are.
pub const CANDIDATES: u32 = 33;

/// The files of a program, and the inputs that its runs are compared on.
#[derive(Clone, Copy)]
pub struct GivenFiles<'a> {
    pub image: &'a [u8],
    pub machine: &'a [u8],
    pub loops: &'a [u8],
    pub inputs: &'a [Vec<u8>],
}

/// The files of a program, and the inputs with a flag for each that says whether it counts.
#[derive(Drop)]
pub struct Files<'a> {
    pub image: &'a [u8],
    pub machine: &'a [u8],
    pub loops: &'a [u8],
    pub inputs: &'a [Vec<u8>],
    pub flags: &'a [bool],
}

/// A candidate that isn't out: its number, what is stored, and the energy of its runs on the inputs that count.
#[derive(Drop)]
pub struct Trial {
    pub candidate: u32,
    pub stored: Vec<u8>,
    pub summary: Summary,
    pub energy: u128,
}

/// The trial of the image that runs at one level, which is never out. How far it is is told.
pub fn held_trial<P: Progress>(
    alloc: Global,
    files: &Files<'_>,
    held: (Vec<u8>, Summary),
    progress: &mut P,
) -> Result<Trial, NoMemory>
    requires image { length files.now.image.now ≤ IMAGE_LIMIT }
    requires machine { length files.now.machine.now ≤ FILE_LIMIT }
    requires loops { length files.now.loops.now ≤ FILE_LIMIT }
    requires few { length files.now.inputs.now ≤ 64 }
    requires flags { files.now.flags.now ≡ map (λ input. counts files.now.image.now files.now.machine.now files.now.loops.now input.items)
        files.now.inputs.now }
    requires held { IsHeld files.now.image.now files.now.machine.now files.now.loops.now (Ok ((held.0.items, held.1))) }
    ensures { IfOk result (IsSafeTrialOf (Made (Ok ((held.0.items, held.1)))) files.now.image.now files.now.machine.now files.now.loops.now
        (map (λ input. input.items) files.now.inputs.now) 0) }
{
    let (stored, summary) = held;
    progress.next(Part::Candidate);
    let energy = spent_over(alloc, files, &stored, progress)?.unwrap();
    Ok(Trial {
        candidate: 0,
        stored,
        summary,
        energy,
    })
}

/// The trial of what was made of a candidate, unless it is out. How far it is is told.
pub fn trial_from<P: Progress>(
    alloc: Global,
    files: &Files<'_>,
    candidate: u32,
    made: Result<(Vec<u8>, Summary), Stop>,
    progress: &mut P,
) -> Result<Option<Trial>, NoMemory>
    requires few { length files.now.inputs.now ≤ 64 }
    requires flags { files.now.flags.now ≡ map (λ input. counts files.now.image.now files.now.machine.now files.now.loops.now input.items)
        files.now.inputs.now }
    requires safe { IfOk made (λ given. IsStoredSafely files.now.image.now files.now.machine.now files.now.loops.now given.0.items
        given.1) }
    ensures { IfOk result (IsTried files.now.image.now files.now.machine.now files.now.loops.now
        (map (λ input. input.items) files.now.inputs.now) candidate made) }
{
    match made {
        Ok((stored, summary)) => match spent_over(alloc, files, &stored, progress)? {
            Some(energy) => Ok(Some(Trial {
                candidate,
                stored,
                summary,
                energy,
            })),
            None => Ok(None),
        },
        Err(Stop::Refused(_)) => Ok(None),
        Err(Stop::Memory) => Err(NoMemory),
    }
}

/// The candidate of a number from 1 on, unless it is out; and the program again.
fn trial_of<'a, P: Progress>(
    alloc: Global,
    files: &Files<'_>,
    program: PreparedProgram<'a>,
    candidate: u32,
    progress: &mut P,
) -> Result<(PreparedProgram<'a>, Option<Trial>), NoMemory>
    requires image { length files.now.image.now ≤ IMAGE_LIMIT }
    requires machine { length files.now.machine.now ≤ FILE_LIMIT }
    requires loops { length files.now.loops.now ≤ FILE_LIMIT }
    requires few { length files.now.inputs.now ≤ 64 }
    requires flags { files.now.flags.now ≡ map (λ input. counts files.now.image.now files.now.machine.now files.now.loops.now input.items)
        files.now.inputs.now }
    requires prepared { IsPrepared files.now.image.now files.now.machine.now files.now.loops.now program }
    requires from { 1 ≤ candidate }
    requires to { candidate < 33 }
    ensures same { IfOk result (λ given. given.0 ≡ program.entry) }
    ensures trial { IfOk result (λ given. IsTrialOr files.now.image.now files.now.machine.now files.now.loops.now
        (map (λ input. input.items) files.now.inputs.now) candidate given.1) }
{
    progress.next(Part::Candidate);
    let (program, made) = candidate_of(alloc, program, candidate);
    let trial = trial_from(alloc, files, candidate, made, progress)?;
    Ok((program, trial))
}

/// Of two candidates the one of less energy, and the first where they take the same.
pub fn cheaper(best: Trial, other: Option<Trial>) -> Trial
    ensures { result ≡ cheaper_of best other }
{
    match other {
        Some(trial) => {
            if trial.energy < best.energy {
                trial
            } else {
                best
            }
        }
        None => best,
    }
}

/// The candidate of the least energy, of several the least, from the one at one level on. How far the trials are is told.
pub fn cheapest<P: Progress>(
    alloc: Global,
    files: &Files<'_>,
    program: PreparedProgram<'_>,
    held: Trial,
    progress: &mut P,
) -> Result<Trial, NoMemory>
    requires image { length files.now.image.now ≤ IMAGE_LIMIT }
    requires machine { length files.now.machine.now ≤ FILE_LIMIT }
    requires loops { length files.now.loops.now ≤ FILE_LIMIT }
    requires few { length files.now.inputs.now ≤ 64 }
    requires flags { files.now.flags.now ≡ map (λ input. counts files.now.image.now files.now.machine.now files.now.loops.now input.items)
        files.now.inputs.now }
    requires prepared { IsPrepared files.now.image.now files.now.machine.now files.now.loops.now program }
    requires held { IsSafeTrial files.now.image.now files.now.machine.now files.now.loops.now
        (map (λ input. input.items) files.now.inputs.now) 0 held }
    ensures { IfOk result (IsSafeChoice files.now.image.now files.now.machine.now files.now.loops.now
        (map (λ input. input.items) files.now.inputs.now) 33) }
{
    let mut best = held;
    let mut program = program;
    for candidate in 1..CANDIDATES {
        let (next, trial) = trial_of(alloc, files, program, candidate, progress)?;
        program = next;
        best = cheaper(best, trial);
    }
    Ok(best)
}
