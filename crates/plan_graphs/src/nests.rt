//! The loops round a place.

ghost use Rattle.std.specs.Prelude.{◌≡◌, ℕ, Bool, IfOk};
ghost use Rattle.loop_forest.specs.Tree.{loops, IsLoopTree, IsInnermost};
ghost use Rattle.plan_graphs.specs.Drawn.{AreLoopsRound};

use flow_graph::CodeGraph;
use loop_forest::LoopTree;
use scale_base::NoMemory;
use std::alloc::Global;

/// The loops round a node of whose loops `inner` is the least, the outermost first.
pub fn nest_of(
    alloc: Global,
    graph: &CodeGraph,
    tree: &LoopTree,
    inner: Option<usize>,
) -> Result<Vec<usize>, NoMemory>
    requires tree { (extent : ℕ → ℕ → Bool) × IsLoopTree graph.now extent tree.now }
    requires inner { (at : ℕ) × IsInnermost (loops graph.now tree.now) at inner }
    ensures { IfOk result (λ nest. (at : ℕ) → IsInnermost (loops graph.now tree.now) at inner →
        AreLoopsRound (loops graph.now tree.now) at nest.items) }
{
    let _nodes = graph.node_count();
    let mut nest = Vec::new(alloc);
    let mut next = inner;
    while let Some(l) = next {
        nest.insert(0, l)?;
        next = tree.parent(l);
    }
    Ok(nest)
}
