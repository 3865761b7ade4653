//! A program that runs at one level, the slowest that is safe.

ghost use Rattle.std.specs.Prelude.{◌≡◌, ◌≤◌, ◌<◌, List, length, None, Ok, IfOk};
ghost use Rattle.scale_base.specs.Answer.{AnswersBy};
ghost use Rattle.loop_file.specs.declared.notes.LoopNote.{LoopNote};
ghost use Rattle.scaler.specs.Held as held;
ghost use Rattle.scaler.specs.Runs.{IsHeldSafely};
ghost use Rattle.scaler.specs.Timed.{IsTimed};

use crate::timing::TimedProgram;
use answer_parts::time_at;
use elf_image::ImageView;
use elf_patch::{stub_base, write_image};
use power_model::Power;
use program_sources::Sources;
use scale_base::{FILE_LIMIT, IMAGE_LIMIT, NoMemory, Stop, Summary};
use std::alloc::Global;

/// The image with an empty keyed segment and a starting level.
fn held_file(alloc: Global, view: &ImageView<'_>, start: u8) -> Result<Vec<u8>, NoMemory>
    requires file { length view.now.file ≤ IMAGE_LIMIT }
    requires no_key { view.now.keyed_segment ≡ None }
    ensures { IfOk result (λ out. out.items ≡ held.held_file view.now start) }
{
    let base = stub_base(view, 0);
    write_image(alloc, view, &[], base, &[], start)
}

/// The summary of a program of so many worst cycles that runs at one level.
fn held_summary(power: &Power, worst: u64, start: u8) -> Summary
    requires { start < length power.now.levels }
    ensures { result ≡ held.held_summary power.now worst start }
{
    Summary {
        start,
        worst,
        time: time_at(power, worst, start),
        deadline: power.deadline,
        stub_cycles: 0,
        switch_edges: 0,
        exit_edges: 0,
        count_edges: 0,
        stub_bytes: 0,
    }
}

/// What is stored of a program with its worst case, at the slowest level that is safe.
pub fn hold_timed(
    alloc: Global,
    view: &ImageView<'_>,
    power: &Power,
    program: &TimedProgram,
) -> Result<(Vec<u8>, Summary), NoMemory>
    requires file { length view.now.file ≤ IMAGE_LIMIT }
    requires no_key { view.now.keyed_segment ≡ None }
    requires timed { (notes : List LoopNote) × IsTimed power.now view.now notes program.now }
    ensures { (notes : List LoopNote) → IsTimed power.now view.now notes program.now →
        IfOk result (λ given. held.IsHeldProgram power.now view.now notes (Ok ((given.0.items, given.1)))) }
{
    let start = program.start;
    let worst = program.worst.total();
    let summary = held_summary(power, worst, start);
    let bytes = held_file(alloc, view, start)?;
    Ok((bytes, summary))
}

/// The program of three files at the slowest level that is safe.
fn hold_program(alloc: Global, sources: &Sources<'_>) -> Result<(Vec<u8>, Summary), Stop>
    requires file { length sources.now.view.file ≤ IMAGE_LIMIT }
    requires no_key { sources.now.view.keyed_segment ≡ None }
    ensures { AnswersBy (λ given. (given.0.items, given.1)) result (held.IsHeldProgram sources.now.power sources.now.view
        sources.now.notes) }
{
    let program = TimedProgram::of(alloc, sources)?;
    let held = hold_timed(alloc, &sources.view, &sources.power, &program)?;
    Ok(held)
}

/// The image with an empty keyed segment that starts it at the slowest level at which its worst case is in time, and the
/// numbers of its summary; or the first refusal: of the machine file, of the image, of a keyed segment, of the loop file,
/// of the reached code, of its loops, of more than 2^48 worst cycles, and of the deadline.
///
/// The files have at most the bytes that the program loads: 4,194,304 of an image, 1,048,576 of each other file. Times are in
/// the machine file's time units.
pub fn hold(
    alloc: Global,
    image: &[u8],
    machine: &[u8],
    loops: &[u8],
) -> Result<(Vec<u8>, Summary), Stop>
    requires image { length image.now ≤ IMAGE_LIMIT }
    requires machine { length machine.now ≤ FILE_LIMIT }
    requires loops { length loops.now ≤ FILE_LIMIT }
    ensures given { AnswersBy (λ given. (given.0.items, given.1)) result (held.IsHeld image.now machine.now loops.now) }

    // The stored image runs as the original one does, on every input, and its kept runs end within the printed time.
    ensures safe { IfOk result (λ given. IsHeldSafely image.now machine.now loops.now given.0.items given.1) }
{
    let sources = Sources::read(alloc, image, machine, loops)?;
    hold_program(alloc, &sources)
}
