//! The edges between nodes, as arcs between their numbers.

ghost use Rattle.std.specs.Prelude.{◌≡◌, ◌<◌, ◌≤◌, length, IfOk};
ghost use Rattle.flow_graph.specs.FlowGraph.{IsFlowGraph};
ghost use Rattle.loop_forest.specs.Arcs.{ArePlainArcs};
ghost use Rattle.loop_forest.specs.Arcs.{IsArcOf};

use flow_graph::CodeGraph;
use graph_algorithms::Arc;
use scale_base::NoMemory;
use std::alloc::Global;

/// The arc of an edge that leads to a node and is no back edge. `back` says of which loop it is one.
fn plain_arc(graph: &CodeGraph, back: Option<usize>, e: usize) -> Option<Arc>
    requires flow { IsFlowGraph graph.now }
    requires edge { e < length graph.now.code.edges }
    ensures { IsArcOf graph.now back e result }
{
    if back.is_some() {
        return None;
    }
    let to = graph.target(e)?;
    let from = graph.source(e);
    Some(Arc { from, to })
}

/// An arc for each edge that leads to a node and is no back edge. `backs` says of which loop an edge is one.
pub fn plain_arcs(
    alloc: Global,
    graph: &CodeGraph,
    backs: &[Option<usize>],
) -> Result<Vec<Arc>, NoMemory>
    requires flow { IsFlowGraph graph.now }
    requires backs { length backs.now ≡ length graph.now.code.edges }
    ensures few { IfOk result (λ arcs. length arcs.items ≤ 262144) }
    ensures arcs { IfOk result (λ arcs. ArePlainArcs graph.now backs.now (length graph.now.code.edges) arcs.items) }
{
    let mut arcs = Vec::new(alloc);
    for e in 0..graph.edge_count() {
        if let Some(arc) = plain_arc(graph, backs[e], e) {
            arcs.push(arc)?;
        }
    }
    Ok(arcs)
}
