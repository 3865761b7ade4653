//! What edges are charged with the loops that they enter.

ghost use Rattle.std.specs.Prelude.{◌≡◌, ℕ, ◌<◌, Bool, Some, length, IfOk};
ghost use Rattle.graph_algorithms.specs.Arcs.{number_in_place};
ghost use Rattle.graph_algorithms.specs.Keys.{option_at};
ghost use Rattle.flow_graph.specs.FlowGraph.{IsFlowGraph};
ghost use Rattle.loop_forest.specs.Tree.{IsLoopTree};
ghost use Rattle.least_cycles.specs.Charging.{AreHeaderLoops, IsEntered, AreEnteredLoops, charge_by};

use flow_graph::CodeGraph;
use loop_forest::LoopTree;
use scale_base::NoMemory;
use std::alloc::Global;

/// What loops are charged with, and the edges that pay for them.
#[derive(Drop)]
pub struct Charges {
    /// By edge, the loop that it enters from outside.
    pub entries: Vec<Option<usize>>,
    /// By loop, the turns that it has to take, each at the least cost of one.
    pub found: Vec<u64>,
}

impl Charges {
    /// What edge `e` is charged.
    pub fn over(&self, e: usize) -> u64
        requires edge { e < length self.now.entries.items }
        requires within { (l : ℕ) → option_at self.now.entries.items e ≡ Some l → l < length self.now.found.items }
        ensures { result ≡ charge_by self.now.entries.items self.now.found.items e }
    {
        match self.entries[e] {
            Some(l) => self.found[l],
            None => 0,
        }
    }
}

/// The loop that edge `e` enters from outside, by the loops whose headers nodes are.
fn entered(graph: &CodeGraph, tree: &LoopTree, heads: &[Option<usize>], e: usize) -> Option<usize>
    requires flow { IsFlowGraph graph.now }
    requires tree { (extent : ℕ → ℕ → Bool) × IsLoopTree graph.now extent tree.now }
    requires heads { AreHeaderLoops tree.now heads.now }
    requires size { length heads.now ≡ length graph.now.code.nodes }
    requires edge { e < length graph.now.code.edges }
    ensures { IsEntered graph.now tree.now e result }
{
    let Some(k) = graph.target(e) else {
        return None;
    };
    let Some(l) = heads[k] else {
        return None;
    };
    match tree.back_loop(e) {
        Some(_) => None,
        None => Some(l),
    }
}

/// By edge, the loop that it enters from outside.
pub fn entries_of(
    alloc: Global,
    graph: &CodeGraph,
    tree: &LoopTree,
    heads: &[Option<usize>],
) -> Result<Vec<Option<usize>>, NoMemory>
    requires flow { IsFlowGraph graph.now }
    requires tree { (extent : ℕ → ℕ → Bool) × IsLoopTree graph.now extent tree.now }
    requires heads { AreHeaderLoops tree.now heads.now }
    requires size { length heads.now ≡ length graph.now.code.nodes }
    ensures { IfOk result (λ entries. AreEnteredLoops graph.now tree.now (length graph.now.code.edges) entries.items) }
{
    let mut entries = Vec::new(alloc);
    for e in 0..graph.edge_count() {
        entries.push(entered(graph, tree, heads, e))?;
    }
    Ok(entries)
}
