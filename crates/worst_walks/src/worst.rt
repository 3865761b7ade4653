//! A walk that takes the worst cycles.

ghost use Rattle.std.specs.Prelude.{◌≡◌, ℕ, Some, slice_get, IfOk, IfSome};
ghost use Rattle.flow_graph.specs.FlowGraph.{graph as graph_seen};
ghost use Rattle.loop_forest.specs.Tree.{loops};
ghost use Rattle.worst_cycles.specs.Worst.{by_edge};
ghost use Rattle.worst_walks.specs.Explained.{IsWorstWalk};
ghost use Rattle.worst_walks.specs.Known.{IsKnown, HasCountSizes};

use crate::counts::WalkCounts;
use crate::search::{Known, find_parts};
use crate::times::find_times;
use crate::walk::{Proposal, count_walk};
use scale_base::NoMemory;
use std::alloc::Global;

/// What is counted along a walk that takes the worst cycles of a program. None where no such walk is found, or a number is over 2^64 - 1:
/// that one is found is tested, not proved.
pub fn worst_walk(alloc: Global, known: &Known<'_>) -> Result<Option<WalkCounts>, NoMemory>
    requires { IsKnown known.now }
    ensures walk { (worst : ℕ) → slice_get known.now.worst.now.worst 0 ≡ Some worst →
        IfOk result (λ o. IfSome o (λ x. IsWorstWalk (graph_seen known.now.graph.now) (loops known.now.graph.now known.now.tree.now)
        (by_edge known.now.weights.now) worst x)) }
    ensures sizes { IfOk result (λ o. IfSome o (λ x. HasCountSizes known.now.graph.now known.now.tree.now x)) }
{
    let parts = find_parts(alloc, known)?;
    let times = find_times(alloc, known, &parts)?;
    let proposal = Proposal {
        parts,
        calls: times.calls,
        entries: times.entries,
        worst: known.worst.total(),
    };
    count_walk(alloc, known.graph, known.tree, known.weights, proposal)
}
