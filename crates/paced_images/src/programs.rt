//! The program of three files, with switches on the edges that sites name, and with tallied loops.

ghost use Rattle.scale_base.specs.Answer.{AnswersBy};
ghost use Rattle.paced_images.specs.Programs.{IsProgramFound};

use crate::marks::marked_of;
use crate::noted::notes_by;
use crate::wanted::ChosenMarks;
use marked_images::{Program, scaling_of};
use program_sources::Sources;
use scale_base::Stop;
use std::alloc::Global;

/// The program of three files, or the first refusal.
pub fn program_of<'a>(
    alloc: Global,
    image: &'a [u8],
    machine: &[u8],
    loops: &[u8],
    marks: &ChosenMarks<'_>,
) -> Result<Program<'a>, Stop>
    ensures { AnswersBy (λ p. p) result (IsProgramFound image.now machine.now loops.now marks.now.sites.now
        marks.now.counted marks.now.tallied.now marks.now.share) }
{
    let sources = Sources::read(alloc, image, machine, loops)?;
    let power = sources.power;
    let view = sources.view;
    let notes = notes_by(alloc, &sources.notes, marks.counted, marks.tallied)?;
    let marked = marked_of(alloc, &view, &power, &notes, marks)?;
    let scaling = scaling_of(alloc, &view, &power, &marked)?;
    Ok(Program {
        power,
        view,
        marked,
        scaling,
    })
}
