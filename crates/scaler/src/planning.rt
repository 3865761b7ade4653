//! What a rewriting finds, without its file.

ghost use Rattle.std.specs.Prelude.{◌≤◌, length, All, IfOk};
ghost use Rattle.scale_base.specs.Answer.{AnswersBy};
ghost use Rattle.marked_images.specs.Wanted.{IsSitesKind};
ghost use Rattle.scaler.specs.Planned.{IsPlanned};

use crate::lines::site_lines;
use crate::rewriting::program_of;
use scale_base::{FILE_LIMIT, IMAGE_LIMIT, ScalePlan, Stop};
use std::alloc::Global;

/// All that `rewrite` finds, without the file: the summary, and a line for each fragment of each marked edge, in ascending order of the
/// edges' addresses, Taken before Untaken, and on an edge in their order; or the first refusal, as `rewrite` has it.
///
/// The files have at most the bytes that the program loads, as with `rewrite`.
pub fn plan(alloc: Global, image: &[u8], machine: &[u8], loops: &[u8]) -> Result<ScalePlan, Stop>
    requires image { length image.now ≤ IMAGE_LIMIT }
    requires machine { length machine.now ≤ FILE_LIMIT }
    requires loops { length loops.now ≤ FILE_LIMIT }
    ensures plan { AnswersBy (λ p. (p.summary, p.lines.items)) result (IsPlanned image.now machine.now loops.now) }
    ensures sites { IfOk result (λ p. All (λ line. IsSitesKind line.edge.kind) p.lines.items) }
{
    let program = program_of(alloc, image, machine, loops)?;
    let lines = site_lines(alloc, &program.power, &program.marked)?;
    Ok(ScalePlan {
        summary: program.scaling.summary,
        lines,
    })
}
