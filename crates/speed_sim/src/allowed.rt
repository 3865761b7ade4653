//! What is allowed to an image beside its rules.

ghost use Rattle.std.specs.Prelude.{◌≡◌, ◌≤◌, ◌<◌, IfOk, option_map};
ghost use Rattle.scale_base.specs.Answer.{Answers};
ghost use Rattle.scale_base.specs.Run.{starting_level};
ghost use Rattle.speed_sim.specs.Simulated.{loops_allowed, level_allowed, given_notes};

use elf_image::ImageView;
use loop_file::{LoopNotes, read_loops};
use scale_base::{Keyed, Refusal, Stop};
use std::alloc::Global;

/// A loop file is given with an image without a keyed segment alone.
pub fn check_loops(loops: Option<&[u8]>, keyed: Option<Keyed>) -> Result<(), Refusal>
    ensures { result ≡ loops_allowed (option_map (λ l. l.now) loops.entry) keyed }
{
    match (loops, keyed) {
        (Some(_), Some(_)) => Err(Refusal::AlreadyScaled),
        _ => Ok(()),
    }
}

/// The level that a run starts at, of so many: that of the keyed segment, and the fastest one without it.
pub fn start_of(levels: u8, keyed: Option<Keyed>) -> Result<u8, Stop>
    requires some { 1 ≤ levels }
    ensures allowed { Answers (λ _. tt) result (level_allowed levels keyed) }
    ensures start { IfOk result (λ start. start ≡ starting_level levels keyed) }
    ensures is_level { IfOk result (λ start. start < levels) }
{
    match keyed {
        None => Ok(levels - 1),
        Some(keyed) if keyed.start < u32::from(levels) => Ok(keyed.start as u8),
        Some(keyed) => Err(Stop::Refused(Refusal::StartLevel(keyed.start, u32::from(levels)))),
    }
}

/// The notes of the loop file, if one is given.
pub fn read_notes(
    alloc: Global,
    view: &ImageView<'_>,
    loops: Option<&[u8]>,
) -> Result<Option<LoopNotes>, Stop>
    ensures { Answers (λ notes. notes) result (given_notes view.now (option_map (λ l. l.now) loops.entry)) }
{
    match loops {
        Some(loops) => Ok(Some(read_loops(alloc, loops, view)?)),
        None => Ok(None),
    }
}
