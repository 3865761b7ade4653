//! The graph of a program, by its files.

ghost use Rattle.std.specs.Prelude.{◌≡◌, ℕ, Bool, Some, is_some, length, slice_get, IfOk};
ghost use Rattle.scale_base.specs.Answer.{AnswersBy};
ghost use Rattle.power_model.specs.Numbers.{IsPowerModel};
ghost use Rattle.loop_forest.specs.Tree.{IsLoopTree};
ghost use Rattle.plan_graphs.specs.Drawn.{Told};
ghost use Rattle.worst_walks.specs.Known.{IsKnown};
ghost use Rattle.plan_graphs.specs.Sketched.{AreCountedBy, AreMarkedBy, AreMarksKept, IsSketch, Holds, IsSketchDrawn, AreKnownDrawn};
ghost use Rattle.plan_graphs.specs.Program.{IsDrawnProgram, IsPlanDrawn};

use crate::blocks::draw_blocks;
use crate::functions::draw_functions;
use crate::loops::draw_loops;
use crate::plan::PlanGraph;
use crate::sketch::{Marked, Sketch};
use code_names::names_of;
use elf_image::ImageView;
use flow_graph::CodeGraph;
use loop_forest::LoopTree;
use program_sources::Sources;
use scale_base::{NoMemory, Stop};
use scale_sites::{CounterList, choose, counters};
use scaler::TimedProgram;
use std::alloc::Global;
use worst_walks::{Known, worst_walk};

/// The counted loops. None where they can't be counted, or are too many.
fn counters_of(
    alloc: Global,
    graph: &CodeGraph,
    tree: &LoopTree,
) -> Result<Option<CounterList>, NoMemory>
    requires tree { (extent : ℕ → ℕ → Bool) × IsLoopTree graph.now extent tree.now }
    ensures { IfOk result (λ o. AreCountedBy graph.now tree.now o) }
{
    match counters(alloc, graph, tree) {
        Ok(counters) => Ok(Some(counters)),
        Err(Stop::Refused(_)) => Ok(None),
        Err(Stop::Memory) => Err(NoMemory),
    }
}

/// The marks of edges, by their slacks. None where the loops can't be counted.
fn marked_of(alloc: Global, known: &Known<'_>, min_gain: u32) -> Result<Option<Marked>, NoMemory>
    requires { IsKnown known.now }
    ensures { IfOk result (λ o. AreMarkedBy known.now.graph.now known.now.tree.now known.now.worst.now.slacks min_gain o) }
{
    let _nodes = known.graph.node_count();
    match counters_of(alloc, known.graph, known.tree)? {
        None => Ok(None),
        Some(counters) => {
            let slacks = known.worst.slacks();
            let sites = choose(alloc, known.graph, known.tree, &counters, slacks, min_gain)?;
            Ok(Some(Marked { counters, sites }))
        }
    }
}

/// What is drawn of a program.
fn draw_sketch(alloc: Global, sketch: &Sketch<'_, '_>) -> Result<PlanGraph, NoMemory>
    requires { IsSketch sketch.now }
    ensures countable { IfOk result (λ plan. plan.countable ≡ is_some sketch.now.marked.now) }
    ensures walked { IfOk result (λ plan. plan.walked ≡ is_some sketch.now.walk.now) }
    ensures parts { IfOk result (λ plan. (told : Told) → Holds sketch.now told → IsSketchDrawn sketch.now told plan) }
{
    let _blocks = sketch.graph.block_count();
    let functions = draw_functions(alloc, sketch)?;
    let loops = draw_loops(alloc, sketch)?;
    let blocks = draw_blocks(alloc, sketch)?;
    Ok(PlanGraph {
        worst: sketch.worst.total(),
        countable: sketch.marked.is_some(),
        walked: sketch.walk.is_some(),
        functions,
        loops,
        blocks,
    })
}

/// What is drawn of a program whose worst cycles are known.
fn draw_known<'x>(
    alloc: Global,
    view: &'x ImageView<'x>,
    known: &Known<'_>,
    marked: &Option<Marked>,
) -> Result<PlanGraph, NoMemory>
    requires known { IsKnown known.now }
    requires turns { length known.now.worst.now.iteration ≡ length known.now.tree.now.headers }
    requires marked { AreMarksKept known.now.graph.now known.now.tree.now marked.now }
    ensures { (worst : ℕ) → slice_get known.now.worst.now.worst 0 ≡ Some worst →
        IfOk result (λ plan. AreKnownDrawn known.now marked.now worst plan) }
{
    let walk = worst_walk(alloc, known)?;
    let names = names_of(alloc, view)?;
    let sketch = Sketch {
        graph: known.graph,
        tree: known.tree,
        worst: known.worst,
        marked,
        walk: &walk,
        names: &names,
    };
    draw_sketch(alloc, &sketch)
}

/// The graph of the program of an image, with the loops of its notes, or the first refusal of its code, of its loops or of its numbers.
fn draw_program(alloc: Global, sources: &Sources<'_>) -> Result<PlanGraph, Stop>
    requires { IsPowerModel sources.now.power }
    ensures { AnswersBy (λ plan. plan) result (IsDrawnProgram sources.now.power sources.now.view sources.now.notes) }
{
    let timed = TimedProgram::of(alloc, sources)?;
    let known = Known {
        graph: &timed.graph,
        tree: &timed.tree,
        weights: &timed.weights,
        worst: &timed.worst,
    };
    let marked = marked_of(alloc, &known, sources.power.min_gain)?;
    Ok(draw_known(alloc, &sources.view, &known, &marked)?)
}

/// The graph of a program's reached code as it is drawn: its functions, its loops, and its basic blocks in ascending order, each with the edges that start at its end. Each edge
/// has the marks that `rewrite` chooses for it, and says how often a walk takes it that takes the worst cycles. Or the first refusal, as `hold` has it: of the machine file, of the
/// image, of a keyed segment, of the loop file, of the reached code, of its loops, of more than 2^48 worst cycles, and of the deadline.
///
/// Numbers are cycles, of the image as it is: what stubs would cost isn't in them. A name is that of the nearest symbol, as `objdump` writes it; names are tested, not proved.
pub fn draw_plan(
    alloc: Global,
    image: &[u8],
    machine: &[u8],
    loops: &[u8],
) -> Result<PlanGraph, Stop>
    ensures { AnswersBy (λ plan. plan) result (IsPlanDrawn image.now machine.now loops.now) }
{
    let sources = Sources::read(alloc, image, machine, loops)?;
    draw_program(alloc, &sources)
}
