//! What is known of a program and its inputs before the choice.

ghost use Rattle.std.specs.Prelude.{◌≤◌, length, map};
ghost use Rattle.scale_base.specs.Answer.{AnswersBy};
ghost use Rattle.pace_fit.specs.Finding.{IsPreparing};

use crate::endings::{Ending, endings_of, flags_of};
use gain_tuner::GivenFiles;
use machine_file::read_machine;
use power_model::Power;
use run_progress::Progress;
use scale_base::{FILE_LIMIT, IMAGE_LIMIT, Stop, Summary};
use scaler::hold;
use std::alloc::Global;

/// A program that can be held at one level, with its inputs: the numbers of the machine, the image that `hold` stores, how the run of the
/// original on each input ends, and which of the inputs count.
#[derive(Drop)]
pub struct Prepared {
    pub power: Power,
    pub stored: Vec<u8>,
    pub summary: Summary,
    pub endings: Vec<Ending>,
    pub flags: Vec<bool>,
}

/// What is known of a program and its inputs before the choice; or the first refusal, which is that of `hold`. The original runs once on each
/// input. How far these runs are is told.
///
/// The files have at most the bytes that the program loads: 4,194,304 of an image, 1,048,576 of each other file and of an input.
pub fn prepare<P: Progress>(
    alloc: Global,
    files: &GivenFiles<'_>,
    progress: &mut P,
) -> Result<Prepared, Stop>
    requires image { length files.now.image.now ≤ IMAGE_LIMIT }
    requires machine { length files.now.machine.now ≤ FILE_LIMIT }
    requires loops { length files.now.loops.now ≤ FILE_LIMIT }
    ensures { AnswersBy (λ p. p) result (IsPreparing files.now.image.now files.now.machine.now files.now.loops.now
        (map (λ input. input.items) files.now.inputs.now)) }
{
    let power = read_machine(alloc, files.machine)?;
    let held = hold(alloc, files.image, files.machine, files.loops)?;
    let endings = endings_of(alloc, files, progress)?;
    let flags = flags_of(alloc, &endings)?;
    Ok(Prepared {
        power,
        stored: held.0,
        summary: held.1,
        endings,
        flags,
    })
}
