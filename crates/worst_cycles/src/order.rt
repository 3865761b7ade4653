//! An order of nodes in which each stands behind those whose numbers its own is made of.

ghost use Rattle.std.specs.Prelude.{◌≡◌, ◌≤◌, length, OnOk, IfOk};
ghost use Rattle.flow_graph.specs.FlowGraph.{IsFlowGraph};
ghost use Rattle.loop_forest.specs.Arcs.{ArePlainArcs};
ghost use Rattle.worst_cycles.specs.Needs.{AreEntries, AreNeeds, HasTree, IsNeededFirst};

use flow_graph::CodeGraph;
use graph_algorithms::{Arc, Order, sort};
use loop_forest::{LoopTree, plain_arcs};
use scale_base::{NoMemory, WORD_LIMIT};
use std::alloc::Global;

/// To arcs for the plain edges that lead to a node adds one for each edge of a call, to the entry of the called function.
fn add_calls(
    graph: &CodeGraph,
    tree: &LoopTree,
    entries: &[usize],
    arcs: &mut Vec<Arc>,
) -> Result<(), NoMemory>
    requires flow { IsFlowGraph graph.now }
    requires entries { AreEntries graph.now entries.now }
    requires arcs { ArePlainArcs graph.now tree.now.backs (length graph.now.code.edges) arcs.old.items }
    ensures few { OnOk result (length arcs.new.items ≤ 524288) }
    ensures needs { OnOk result (AreNeeds graph.now tree.now.backs entries.now (length graph.now.code.edges) arcs.new.items) }
{
    for e in 0..graph.edge_count() {
        if let Some(f) = graph.callee(e) {
            let from = graph.source(e);
            arcs.push(Arc {
                from,
                to: entries[f],
            })?;
        }
    }
    Ok(())
}

/// The numbers of the nodes, each behind those to which its plain edges lead and the entry of the function that it calls.
pub fn needed_first(
    alloc: Global,
    graph: &CodeGraph,
    tree: &LoopTree,
    count: usize,
    entries: &[usize],
) -> Result<Vec<usize>, NoMemory>
    requires count { count ≡ length graph.now.code.nodes }
    requires few { count ≤ WORD_LIMIT }
    requires flow { IsFlowGraph graph.now }
    requires tree { HasTree graph.now tree.now }
    requires entries { AreEntries graph.now entries.now }
    ensures { IfOk result (λ order. IsNeededFirst graph.now tree.now.backs entries.now order.items) }
{
    let mut arcs = plain_arcs(alloc, graph, tree.backs())?;
    add_calls(graph, tree, entries, &mut arcs)?;
    match sort(alloc, count, &arcs)? {
        Order::Sorted(order) => Ok(order),
        Order::Cycle(_) => unreachable!(),
    }
}
