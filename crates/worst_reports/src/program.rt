//! Where the worst cycles of an image's program go.

ghost use Rattle.std.specs.Prelude.{◌≡◌, ℕ, IfOk, Some, slice_get};
ghost use Rattle.scale_base.specs.Answer.{AnswersBy};
ghost use Rattle.power_model.specs.Numbers.{IsPowerModel};
ghost use Rattle.flow_graph.specs.FlowGraph.{graph as graph_seen};
ghost use Rattle.loop_forest.specs.Tree.{loops};
ghost use Rattle.worst_cycles.specs.Worst.{by_edge};
ghost use Rattle.worst_walks.specs.Known.{IsKnown};
ghost use Rattle.worst_walks.specs.Whole.{AreWorstOf};
ghost use Rattle.worst_reports.specs.Explained.{AreLinesIfFound, IsExplainedProgram, AreExplained};

use crate::explained::Explained;
use code_names::names_of;
use elf_image::ImageView;
use program_sources::Sources;
use scale_base::{NoMemory, Stop};
use scaler::TimedProgram;
use std::alloc::Global;
use worst_lines::{Line, Walked, walk_lines};
use worst_walks::{Known, whole_cycles, worst_walk};

/// The lines of a walk that takes the worst cycles. None where no walk is found.
fn known_lines<'x>(
    alloc: Global,
    view: &'x ImageView<'x>,
    known: &Known<'_>,
) -> Result<Option<Vec<Line>>, NoMemory>
    requires { IsKnown known.now }
    ensures { (worst : ℕ) → slice_get known.now.worst.now.worst 0 ≡ Some worst →
        AreWorstOf (graph_seen known.now.graph.now) (loops known.now.graph.now known.now.tree.now) (by_edge known.now.weights.now)
        known.now.worst.now.worst → IfOk result (AreLinesIfFound view.now.file (graph_seen known.now.graph.now)
        (loops known.now.graph.now known.now.tree.now) (by_edge known.now.weights.now) worst) }
{
    let Some(counts) = worst_walk(alloc, known)? else {
        return Ok(None);
    };
    let Some(all) = whole_cycles(alloc, known, &counts)? else {
        return Ok(None);
    };
    let names = names_of(alloc, view)?;
    let walked = Walked {
        names: &names,
        graph: known.graph,
        tree: known.tree,
        counts: &counts,
        all: &all,
    };
    walk_lines(alloc, &walked, known.worst.total())
}

/// Where the worst cycles of an image's program go, with the loops of its notes, or the first refusal of its code, of its loops or of its numbers.
fn program_explained(alloc: Global, sources: &Sources<'_>) -> Result<Explained, Stop>
    requires { IsPowerModel sources.now.power }
    ensures { AnswersBy (λ x. x) result (IsExplainedProgram sources.now.power sources.now.view sources.now.notes) }
{
    let timed = TimedProgram::of(alloc, sources)?;
    let total = timed.worst.total();
    let known = Known {
        graph: &timed.graph,
        tree: &timed.tree,
        weights: &timed.weights,
        worst: &timed.worst,
    };
    let lines = known_lines(alloc, &sources.view, &known)?;
    Ok(Explained {
        worst: total,
        lines,
    })
}

/// Where the worst cycles of a program go: the worst cycles, and a line for each function and each loop on a walk that takes them, with how often it is called or
/// entered and the cycles that it takes there. Or the first refusal, as `hold` has it: of the machine file, of the image, of a keyed segment, of the loop file, of
/// the reached code, of its loops, of more than 2^48 worst cycles, and of the deadline.
///
/// The numbers are those of the image as it is: what a stub would cost isn't in them. Their time is nearly linear in the graph, whatever the bounds of the loops.
pub fn explain(alloc: Global, image: &[u8], machine: &[u8], loops: &[u8]) -> Result<Explained, Stop>
    ensures { AnswersBy (λ x. x) result (AreExplained image.now machine.now loops.now) }
{
    let sources = Sources::read(alloc, image, machine, loops)?;
    program_explained(alloc, &sources)
}
