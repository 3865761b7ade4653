//! The reasons of a program.

ghost use Rattle.std.specs.Prelude.{◌≡◌};
ghost use Rattle.scale_base.specs.Answer.{AnswersBy};
ghost use Rattle.power_model.specs.Numbers.{IsPowerModel};
ghost use Rattle.level_reasons.specs.Program.{IsShownProgram, AreReasons};

use crate::edges::edge_lines;
use crate::loops::loop_lines;
use crate::numbered::Numbered;
use crate::shown::Shown;
use least_cycles::least;
use program_sources::Sources;
use scale_base::Stop;
use scaler::TimedProgram;
use std::alloc::Global;

/// The reasons of the program of an image, with the loops of its notes, or the first refusal of its code, of its loops or of its numbers.
fn program_reasons(alloc: Global, sources: &Sources<'_>) -> Result<Shown, Stop>
    requires { IsPowerModel sources.now.power }
    ensures { AnswersBy (λ shown. shown) result (IsShownProgram sources.now.power sources.now.view sources.now.notes) }
{
    let timed = TimedProgram::of(alloc, sources)?;
    let start = timed.start;
    let total = timed.worst.total();
    let least = least(alloc, &timed.graph, &timed.tree, &timed.weights)?;
    let program = Numbered {
        power: &sources.power,
        graph: &timed.graph,
        tree: &timed.tree,
        worst: &timed.worst,
        least: &least,
        start,
    };
    let edges = edge_lines(alloc, &program)?;
    let loops = loop_lines(alloc, &program)?;
    Ok(Shown {
        start,
        worst: total,
        edges,
        loops,
    })
}

/// What keeps the level of a program from being lowered: its starting level and its worst cycles, a reason for each edge of a branch or of a jump that has slack, and
/// one for each loop. Or the first refusal, as `hold` has it: of the machine file, of the image, of a keyed segment, of the loop file, of the reached code, of its
/// loops, of more than 2^48 worst cycles, and of the deadline.
///
/// The numbers are those of the image as it is: what a stub would cost isn't in them.
pub fn reasons(alloc: Global, image: &[u8], machine: &[u8], loops: &[u8]) -> Result<Shown, Stop>
    ensures { AnswersBy (λ shown. shown) result (AreReasons image.now machine.now loops.now) }
{
    let sources = Sources::read(alloc, image, machine, loops)?;
    program_reasons(alloc, &sources)
}
