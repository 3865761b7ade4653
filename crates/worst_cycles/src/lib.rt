//! The worst cycles of a program's functions, and the greatest cost of an iteration of each of its loops.
//! Tests: crates/graph_tests/src/worst_numbers.rt.
#![tactic(auto)]

ghost use Rattle.std.specs.Prelude.{◌≡◌, ℕ, Bool, length, IfOk};
ghost use Rattle.scale_base.specs.Answer.{AnswersBy};
ghost use Rattle.cost_theory.specs.Accepted.{AreWeights};
ghost use Rattle.flow_graph.specs.FlowGraph.{graph as graph_seen};
ghost use Rattle.loop_forest.specs.Tree.{loops, IsLoopTree};
ghost use Rattle.worst_cycles.specs.Worst.{by_edge, IsWorstFound, HasLeftSizes, IsLeftOf};

mod around;
mod contexts;
mod entries;
mod found;
mod iteration;
mod lefts;
mod numbers;
mod order;
mod parts;
mod pass;
mod plan;
mod planned;
mod rests;
mod slacks;
mod visits;

use flow_graph::{CodeGraph, Weights};
use found::{iterations_of, worst_of};
use loop_forest::LoopTree;
pub use numbers::WorstNumbers;
use parts::parts_of;
use pass::{LIMIT, visit_nodes};
use plan::make_plan;
use planned::{PlannedGraph, VisitedGraph};
use scale_base::{Refusal, Stop};
use std::alloc::Global;

/// The worst cycles of a graph's functions, an iteration of each of its loops, and what is left at its nodes and behind its edges,
/// under weights of its edges; or the refusal where the worst cycles of the program are over 2^48.
pub fn worst(
    alloc: Global,
    graph: &CodeGraph,
    tree: &LoopTree,
    weights: &Weights,
) -> Result<WorstNumbers, Stop>
    requires tree { (extent : ℕ → ℕ → Bool) × IsLoopTree graph.now extent tree.now }
    requires weights { length weights.now ≡ length graph.now.code.edges }
    requires calls { AreWeights (graph_seen graph.now) (by_edge weights.now) }
    ensures found { AnswersBy (λ n. n) result (IsWorstFound (graph_seen graph.now) (loops graph.now tree.now) (by_edge weights.now)) }
    ensures sizes { IfOk result (λ x. HasLeftSizes graph.now x) }
    ensures left { IfOk result (λ x. IsLeftOf graph.now (loops graph.now tree.now) (by_edge weights.now) x) }
{
    let plan = make_plan(alloc, graph, tree, weights)?;
    let planned = PlannedGraph {
        graph,
        tree,
        weights,
        plan: &plan,
    };
    let visits = visit_nodes(alloc, &planned)?;
    let worst = worst_of(alloc, graph, &plan.entries, &visits)?;
    if worst[0] > LIMIT {
        return Err(Stop::Refused(Refusal::TooLong));
    }
    let iteration = iterations_of(alloc, tree, &visits)?;
    let visited = VisitedGraph {
        planned,
        visits: &visits,
    };
    let parts = parts_of(alloc, &visited)?;
    Ok(WorstNumbers::from_parts(worst, iteration, parts))
}
