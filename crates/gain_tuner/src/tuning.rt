//! The tuning of a program.

ghost use Rattle.std.specs.Prelude.{◌≡◌, ◌≤◌, ◌<◌, ◌-◌, length, map, count_by, IfOk};
ghost use Rattle.std.specs.List.{All};
ghost use Rattle.scale_base.specs.Answer.{AnswersBy};
ghost use Rattle.scaler.specs.Prepared.{IsPrepared};
ghost use Rattle.marked_images.specs.Promise.{IsStoredSafely};
ghost use Rattle.gain_tuner.specs.Choice.{IsChoice, IsTuning};

use crate::choosing::{CANDIDATES, Files, GivenFiles, Trial, cheapest, held_trial};
use crate::spending::counting_of;
use run_progress::{Part, Progress, Silent};
use scale_base::{FILE_LIMIT, IMAGE_LIMIT, NoMemory, Stop, Tuned};
use scaler::PreparedProgram;
use std::alloc::Global;

/// How many flags are set.
pub fn count_of(flags: &[bool]) -> usize
    ensures { result ≡ count_by (λ flag. flag) flags.now }
{
    flags.iter().filter(|flag| **flag).count()
}

/// What is stored of a choice, and its numbers.
fn choice_of(best: Trial, hold_energy: u128, flags: &[bool]) -> (Vec<u8>, Tuned)
    requires { length flags.now ≤ 64 }
    ensures stored { result.0.items ≡ best.stored.items }
    ensures tuned { let count = count_by (λ flag. flag) flags.now in
        result.1 ≡ record {
          candidate = best.candidate;
          summary = best.summary;
          inputs = count;
          left_out = length flags.now - count;
          energy = best.energy;
          hold_energy = hold_energy;
        } }
{
    let count = count_of(flags);
    let tuned = Tuned {
        candidate: best.candidate,
        summary: best.summary,
        inputs: count as u32,
        left_out: (flags.len() - count) as u32,
        energy: best.energy,
        hold_energy,
    };
    (best.stored, tuned)
}

/// The choice for a program that can be held at one level.
fn tune_held<P: Progress>(
    alloc: Global,
    given: &GivenFiles<'_>,
    program: PreparedProgram<'_>,
    progress: &mut P,
) -> Result<(Vec<u8>, Tuned), NoMemory>
    requires image { length given.now.image.now ≤ IMAGE_LIMIT }
    requires machine { length given.now.machine.now ≤ FILE_LIMIT }
    requires loops { length given.now.loops.now ≤ FILE_LIMIT }
    requires few { length given.now.inputs.now ≤ 64 }
    requires prepared { IsPrepared given.now.image.now given.now.machine.now given.now.loops.now program }
    ensures choice { IfOk result (λ chosen. IsChoice given.now.image.now given.now.machine.now given.now.loops.now
        (map (λ input. input.items) given.now.inputs.now) chosen.0.items chosen.1) }
    ensures safe { IfOk result (λ chosen. IsStoredSafely given.now.image.now given.now.machine.now given.now.loops.now chosen.0.items
        chosen.1.summary) }
{
    let held = program.held(alloc)?;
    let flags = counting_of(alloc, given, progress)?;
    let files = Files {
        image: given.image,
        machine: given.machine,
        loops: given.loops,
        inputs: given.inputs,
        flags: &flags,
    };
    progress.begin(Part::Candidate, CANDIDATES as usize);
    let first = held_trial(alloc, &files, held, progress)?;
    let energy = first.energy;
    let best = cheapest(alloc, &files, program, first, progress)?;
    Ok(choice_of(best, energy, &flags))
}

/// `tune`, which tells how far it is.
pub fn tune_with_progress<P: Progress>(
    alloc: Global,
    files: &GivenFiles<'_>,
    progress: &mut P,
) -> Result<(Vec<u8>, Tuned), Stop>
    requires image { length files.now.image.now ≤ IMAGE_LIMIT }
    requires machine { length files.now.machine.now ≤ FILE_LIMIT }
    requires loops { length files.now.loops.now ≤ FILE_LIMIT }
    requires some { 1 ≤ length files.now.inputs.now }
    requires few { length files.now.inputs.now ≤ 64 }
    requires inputs { All (λ input. length input.items ≤ FILE_LIMIT) files.now.inputs.now }
    ensures tuned { AnswersBy (λ given. (given.0.items, given.1)) result (IsTuning files.now.image.now files.now.machine.now
        files.now.loops.now (map (λ input. input.items) files.now.inputs.now)) }
    ensures saves { IfOk result (λ given. given.1.energy ≤ given.1.hold_energy) }
    ensures safe { IfOk result (λ given. IsStoredSafely files.now.image.now files.now.machine.now files.now.loops.now given.0.items
        given.1.summary) }
{
    let program = PreparedProgram::of(alloc, files.image, files.machine, files.loops)?;
    Ok(tune_held(alloc, files, program, progress)?)
}

/// The image of the candidate whose runs take the least energy on the inputs that count, of several the least, and the numbers of that choice; or
/// the first refusal, which is that of `hold`.
///
/// An input counts where the original run exits within the machine file's steps and is kept. Candidate 0 is what `hold` stores; for each k
/// below 16, candidate 1 + 2k is what `rewrite_as` stores by the least gain 4^k, and candidate 2 + 2k the same with no loop counted. A candidate is
/// out where it is refused, or where its run on an input that counts is out of steps. Energies are in the machine file's energy units.
///
/// There is one run at a time in memory, the graph and the loops of the program, and one candidate beside the best so far. The files have at
/// most the bytes that the program loads: 4,194,304 of an image, 1,048,576 of each other file and of an input.
pub fn tune(
    alloc: Global,
    image: &[u8],
    machine: &[u8],
    loops: &[u8],
    inputs: &[Vec<u8>],
) -> Result<(Vec<u8>, Tuned), Stop>
    requires image { length image.now ≤ IMAGE_LIMIT }
    requires machine { length machine.now ≤ FILE_LIMIT }
    requires loops { length loops.now ≤ FILE_LIMIT }
    requires some { 1 ≤ length inputs.now }
    requires few { length inputs.now ≤ 64 }
    requires inputs { All (λ input. length input.items ≤ FILE_LIMIT) inputs.now }
    ensures tuned { AnswersBy (λ given. (given.0.items, given.1)) result (IsTuning image.now machine.now loops.now
        (map (λ input. input.items) inputs.now)) }

    // The choice never takes more than the image that runs at one level.
    ensures saves { IfOk result (λ given. given.1.energy ≤ given.1.hold_energy) }

    // On each input on which the original run exits and is kept, the stored run keeps the promise.
    ensures safe { IfOk result (λ given. IsStoredSafely image.now machine.now loops.now given.0.items given.1.summary) }
{
    let files = GivenFiles {
        image,
        machine,
        loops,
        inputs,
    };
    tune_with_progress(alloc, &files, &mut Silent)
}
