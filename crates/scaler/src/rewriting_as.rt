//! A rewritten program whose marks are chosen by other numbers than those of its files.

ghost use Rattle.std.specs.Prelude.{◌≡◌, ◌≤◌, length, IfOk};
ghost use Rattle.scale_base.specs.Answer.{AnswersBy};
ghost use Rattle.marked_images.specs.Promise.{IsStoredSafely};
ghost use Rattle.scaler.specs.RewrittenAs as variant;

use crate::rewriting::rewrite_program;
use loop_file::LoopNotes;
use power_model::Power;
use program_sources::Sources;
use scale_base::{FILE_LIMIT, IMAGE_LIMIT, Stop, Summary};
use std::alloc::Global;

/// The machine with another number of cycles of slack from which on an edge gets a switch.
pub fn with_gain(power: Power, min_gain: u32) -> Power
    ensures { result ≡ variant.with_gain power min_gain }
{
    let mut power = power;
    power.min_gain = min_gain;
    power
}

/// The notes as they are, or with no loop counted.
fn notes_with(counters: bool, notes: LoopNotes) -> LoopNotes
    ensures { result ≡ variant.notes_with counters notes }
{
    if counters { notes } else { notes.uncounted() }
}

/// What `rewrite` gives where the least gain of the machine file is `min_gain` cycles of slack and, without `counters`, no loop is
/// counted; or the first refusal, in the order of `rewrite`.
///
/// The files have at most the bytes that the program loads: 4,194,304 of an image, 1,048,576 of each other file. Times are in
/// the machine file's time units.
pub fn rewrite_as(
    alloc: Global,
    image: &[u8],
    machine: &[u8],
    loops: &[u8],
    min_gain: u32,
    counters: bool,
) -> Result<(Vec<u8>, Summary), Stop>
    requires image { length image.now ≤ IMAGE_LIMIT }
    requires machine { length machine.now ≤ FILE_LIMIT }
    requires loops { length loops.now ≤ FILE_LIMIT }
    ensures given { AnswersBy (λ given. (given.0.items, given.1)) result (variant.IsRewrittenAs image.now machine.now loops.now min_gain
        counters) }

    // On each input on which the original run exits and is kept, by the files' own notes, the stored run keeps the promise.
    ensures safe { IfOk result (λ given. IsStoredSafely image.now machine.now loops.now given.0.items given.1) }
{
    let sources = Sources::read(alloc, image, machine, loops)?;
    let power = with_gain(sources.power, min_gain);
    let notes = notes_with(counters, sources.notes);
    rewrite_program(alloc, &sources.view, &power, &notes)
}
