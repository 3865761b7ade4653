//! The back edges of loops.

ghost use Rattle.std.specs.Prelude.{◌≡◌, ◌<◌, ◌↔◌, ℕ, Some, length, IfOk};
ghost use Rattle.flow_graph.specs.FlowGraph.{IsFlowGraph};
ghost use Rattle.graph_algorithms.specs.Nesting.{bodies_of};
ghost use Rattle.loop_tree.specs.Backs.{AreDistinctHeaders, ArePlacedHeaders, AreLoopLists, IsBackBetween, AreBacks};

use flow_graph::CodeGraph;
use loop_forest::has_number;
use scale_base::NoMemory;
use std::alloc::Global;

/// By node, the loop whose header it is.
fn loops_by_header(
    alloc: Global,
    headers: &[usize],
    count: usize,
) -> Result<Vec<Option<usize>>, NoMemory>
    requires { AreDistinctHeaders headers.now count }
    ensures { IfOk result (λ heads. ArePlacedHeaders headers.now (length headers.now) count heads.items) }
{
    let mut heads: Vec<Option<usize>> = vec![in alloc; None; count]?;
    for (number, header) in headers.iter().enumerate() {
        heads[*header] = Some(number);
    }
    Ok(heads)
}

/// The loop of which edge `e` is a back edge: that whose header it leads to, where its body has the edge's source.
fn back_loop(
    graph: &CodeGraph,
    headers: &[usize],
    heads: &[Option<usize>],
    bodies: &[Vec<usize>],
    e: usize,
) -> Option<usize>
    requires flow { IsFlowGraph graph.now }
    requires loops { AreLoopLists graph.now headers.now (bodies_of bodies.now) }
    requires heads { ArePlacedHeaders headers.now (length headers.now) (length graph.now.code.nodes) heads.now }
    requires edge { e < length graph.now.code.edges }
    ensures { (k : ℕ) → (result ≡ Some k) ↔ IsBackBetween graph.now headers.now (bodies_of bodies.now) e k }
{
    let to = graph.target(e)?;
    let number = heads[to]?;
    let from = graph.source(e);
    if has_number(&bodies[number], from) {
        Some(number)
    } else {
        None
    }
}

/// By edge, the loop of which it is a back edge.
pub fn back_loops(
    alloc: Global,
    graph: &CodeGraph,
    headers: &[usize],
    bodies: &[Vec<usize>],
) -> Result<Vec<Option<usize>>, NoMemory>
    requires flow { IsFlowGraph graph.now }
    requires loops { AreLoopLists graph.now headers.now (bodies_of bodies.now) }
    ensures { IfOk result (λ backs. AreBacks graph.now headers.now (bodies_of bodies.now) (length graph.now.code.edges) backs.items) }
{
    let heads = loops_by_header(alloc, headers, graph.node_count())?;
    let mut backs = Vec::new(alloc);
    for e in 0..graph.edge_count() {
        backs.push(back_loop(graph, headers, &heads, bodies, e))?;
    }
    Ok(backs)
}
