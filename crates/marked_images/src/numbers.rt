//! The numbers of a program with marks, and the level at which it starts.

ghost use Rattle.std.specs.Prelude.{◌≡◌, List, Ok};
ghost use Rattle.scale_base.specs.Answer.{AnswersBy};
ghost use Rattle.scale_base.specs.Image.{Image};
ghost use Rattle.scale_sites.specs.Counters.{AreCounters};
ghost use Rattle.code_text.specs.Text.{text_of};
ghost use Rattle.flow_graph.specs.FlowGraph.{IsGraphOf};
ghost use Rattle.loop_file.specs.declared.notes.LoopNote.{LoopNote};
ghost use Rattle.loop_forest.specs.Tree.{IsTreeOf};
ghost use Rattle.marked_images.specs.Scalings as scalings;
ghost use Rattle.marked_images.specs.Stored.{by_deadline};
ghost use Rattle.marked_images.specs.Wanted.{Wanted};

use crate::stubs::Marking;
use answer_parts::time_at;
use flow_graph::CodeGraph;
use least_cycles::least;
use level_tables::LevelBudgets;
use loop_forest::LoopTree;
use power_model::{Power, slowest};
use scale_base::{Refusal, Stop};
use scale_sites::{CounterList, Sites};
use std::alloc::Global;
use worst_cycles::worst;

/// The slowest level at which so many cycles are in time.
pub fn starting_level(power: &Power, worst: u64) -> Result<u8, Refusal>
    ensures { result ≡ scalings.chosen_level power.now worst }
{
    match slowest(power, worst) {
        Some(start) => Ok(start),
        None => {
            let fastest = power.levels.count() - 1;
            Err(Refusal::DeadlineMissed(time_at(power, worst, fastest), power.deadline))
        }
    }
}

/// The counted loops of a program, and the marks of its edges.
#[derive(Drop)]
pub struct EdgeMarks {
    pub counters: CounterList,
    pub sites: Sites,
}

/// The numbers of a program with these marks under its stored weights, if they are in time, with its starting level. Each level's budget is the
/// deadline, so that a switch uses the slack of its own edge alone; another may be put in its place.
pub fn marking_with(
    alloc: Global,
    power: &Power,
    graph: &CodeGraph,
    tree: &LoopTree,
    marks: EdgeMarks,
) -> Result<(Marking, u8), Stop>
    requires program { (image : Image) × (notes : List LoopNote) × IsGraphOf (text_of image) graph.now × IsTreeOf graph.now notes tree.now }
    requires counters { AreCounters graph.now tree.now (Ok marks.counters) }
    requires marks { (wanted : Wanted) × scalings.HasMarks graph.now tree.now wanted marks.sites }
    ensures { (image : Image) (wanted : Wanted) → IsGraphOf (text_of image) graph.now →
        scalings.HasMarks graph.now tree.now wanted marks.sites →
        AnswersBy (λ x. x) result (scalings.IsMarkingFound power.now image graph.now tree.now wanted (by_deadline power.now)) }
{
    let weights = marks.sites.stored_weights(alloc, graph, &power.costs)?;
    let worst = worst(alloc, graph, tree, &weights)?;
    let start = starting_level(power, worst.total())?;
    let least = least(alloc, graph, tree, &weights)?;
    Ok((
        Marking {
            counters: marks.counters,
            sites: marks.sites,
            worst,
            least,
            budgets: LevelBudgets::alike(power.deadline),
        },
        start,
    ))
}
