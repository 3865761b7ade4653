//! Counts of a walk, once they are proposed.

ghost use Rattle.std.specs.Prelude.{◌≡◌, ℕ, Bool, length, IfOk, IfSome};
ghost use Rattle.flow_graph.specs.FlowGraph.{graph as graph_seen};
ghost use Rattle.loop_forest.specs.Tree.{loops, IsLoopTree};
ghost use Rattle.worst_cycles.specs.Worst.{by_edge};
ghost use Rattle.worst_walks.specs.Explained.{IsWorstWalk};
ghost use Rattle.worst_walks.specs.Known.{HasCountSizes};
ghost use Rattle.worst_walks.specs.Owned.{AreTurns, AreWhole};

use crate::counts::WalkCounts;
use crate::fits::{PartTimes, walked_edges};
use crate::keys::ones;
use crate::own::{OwnCycles, add_up, own_cycles, takes};
use crate::parts::Parts;
use crate::sums::wide_weights;
use crate::tallies::tally;
use flow_graph::{CodeGraph, Weights};
use loop_forest::LoopTree;
use scale_base::NoMemory;
use std::alloc::Global;

/// A proposal: parts of a walk, how often functions are called and loops entered, and the cycles that the walk takes.
#[derive(Drop)]
pub struct Proposal {
    pub parts: Parts,
    pub calls: Vec<u64>,
    pub entries: Vec<u64>,
    pub worst: u64,
}

/// By loop, how many back edges are taken.
fn taken_turns(
    alloc: Global,
    graph: &CodeGraph,
    tree: &LoopTree,
    taken: &[u64],
) -> Result<Option<Vec<u64>>, NoMemory>
    requires tree { (extent : ℕ → ℕ → Bool) × IsLoopTree graph.now extent tree.now }
    requires taken { length taken.now ≡ length graph.now.code.edges }
    ensures { IfOk result (λ o. IfSome o (λ turns. AreTurns graph.now tree.now taken.now turns.items)) }
{
    let ones = ones(alloc, graph.edge_count())?;
    tally(alloc, tree.loop_count(), tree.backs(), taken, &ones)
}

/// By edge, how often a walk takes it, and the cycles that the walk takes.
#[derive(Clone, Copy)]
struct WalkedEdges<'a> {
    taken: &'a [u64],
    worst: u64,
}

/// The own cycles of functions and loops, where edges that are taken so often take so many cycles.
fn whole_cycles(
    alloc: Global,
    graph: &CodeGraph,
    tree: &LoopTree,
    weights: &Weights,
    walk: &WalkedEdges<'_>,
) -> Result<Option<OwnCycles>, NoMemory>
    requires tree { (extent : ℕ → ℕ → Bool) × IsLoopTree graph.now extent tree.now }
    requires weights { length weights.now ≡ length graph.now.code.edges }
    requires taken { length walk.now.taken.now ≡ length graph.now.code.edges }
    ensures { IfOk result (λ o. IfSome o (λ own. AreWhole graph.now tree.now weights.now walk.now.taken.now walk.now.worst own)) }
{
    let wide = wide_weights(alloc, weights)?;
    let Some(own) = own_cycles(alloc, graph, tree, walk.taken, &wide)? else {
        return Ok(None);
    };
    if takes(walk.taken, &wide, walk.worst) && add_up(&own.functions, &own.loops, walk.worst) {
        Ok(Some(own))
    } else {
        Ok(None)
    }
}

/// What is counted along a walk as proposed. None where the numbers are those of no walk, or one isn't in range.
pub fn count_walk(
    alloc: Global,
    graph: &CodeGraph,
    tree: &LoopTree,
    weights: &Weights,
    proposal: Proposal,
) -> Result<Option<WalkCounts>, NoMemory>
    requires tree { (extent : ℕ → ℕ → Bool) × IsLoopTree graph.now extent tree.now }
    requires weights { length weights.now ≡ length graph.now.code.edges }
    requires paths { length proposal.parts.paths.items ≡ length graph.now.code.functions }
    requires turns { length proposal.parts.turns.items ≡ length tree.now.headers }
    requires calls { length proposal.calls.items ≡ length graph.now.code.functions }
    requires entries { length proposal.entries.items ≡ length tree.now.headers }
    ensures walk { IfOk result (λ o. IfSome o (λ x. IsWorstWalk (graph_seen graph.now) (loops graph.now tree.now) (by_edge weights.now)
        proposal.worst x)) }
    ensures sizes { IfOk result (λ o. IfSome o (λ x. HasCountSizes graph.now tree.now x)) }
{
    let _nodes = graph.node_count();
    let worst = proposal.worst;
    let (calls, entries) = (proposal.calls, proposal.entries);
    let Some(taken) = walked_edges(
        alloc,
        graph,
        tree,
        &proposal.parts,
        &PartTimes {
            calls: &calls,
            entries: &entries,
        },
    )?
    else {
        return Ok(None);
    };
    let Some(turns) = taken_turns(alloc, graph, tree, &taken)? else {
        return Ok(None);
    };
    let walk = WalkedEdges {
        taken: &taken,
        worst,
    };
    let Some(own) = whole_cycles(alloc, graph, tree, weights, &walk)? else {
        return Ok(None);
    };
    Ok(Some(WalkCounts {
        taken,
        calls,
        entries,
        turns,
        function_own: own.functions,
        loop_own: own.loops,
    }))
}
