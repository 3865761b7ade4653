//! The worst case of a program, and the level at which it is in time.

ghost use Rattle.std.specs.Prelude.{◌≡◌, map, IfOk};
ghost use Rattle.scale_base.specs.Answer.{AnswersBy};
ghost use Rattle.power_model.specs.Price.{cycles_of};
ghost use Rattle.code_text.specs.EdgeCosts.{cost_of};
ghost use Rattle.scaler.specs.Timed.{IsTimedFound};

use code_graph::build_graph;
use flow_graph::{CodeGraph, Weights};
use loop_forest::LoopTree;
use loop_tree::build_loops;
use marked_images::starting_level;
use power_model::Power;
use program_sources::Sources;
use scale_base::{NoMemory, Stop};
use std::alloc::Global;
use worst_cycles::{WorstNumbers, worst};

/// A program that is in time at some level: its graph and its loops, the costs of its edges in cycles, its worst cycles by these, and
/// the slowest level at which they are in time.
#[derive(Drop)]
pub struct TimedProgram {
    pub graph: CodeGraph,
    pub tree: LoopTree,
    pub weights: Weights,
    pub worst: WorstNumbers,
    pub start: u8,
}

/// The costs of the edges of a graph on a machine, in cycles.
pub fn weights_of(alloc: Global, graph: &CodeGraph, power: &Power) -> Result<Weights, NoMemory>
    ensures { IfOk result (λ weights. weights ≡ map (cost_of (cycles_of power.now.costs)) graph.now.classes) }
{
    graph.base_weights(alloc, &power.costs)
}

impl TimedProgram {
    /// The program of three files, or the first refusal, as `hold` has it: of the reached code, of its loops, of more than 2^48 worst
    /// cycles, and of the deadline.
    pub fn of(alloc: Global, sources: &Sources<'_>) -> Result<TimedProgram, Stop>
        ensures { AnswersBy (λ p. p) result (IsTimedFound sources.now.power sources.now.view sources.now.notes) }
    {
        let graph = build_graph(alloc, &sources.view)?;
        let tree = build_loops(alloc, &graph, &sources.notes)?;
        let weights = weights_of(alloc, &graph, &sources.power)?;
        let numbers = worst(alloc, &graph, &tree, &weights)?;
        let total = numbers.total();
        let start = starting_level(&sources.power, total)?;
        Ok(TimedProgram {
            graph,
            tree,
            weights,
            worst: numbers,
            start,
        })
    }
}
