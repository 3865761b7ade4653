//! Which parts of a graph turn, and at which nodes they are entered.

ghost use Rattle.std.specs.Prelude.{◌≡◌, length, vec_len, IfOk};
ghost use Rattle.loop_drafts.specs.Numbered.{AreNumbers};

use flow_graph::CodeGraph;
use scale_base::NoMemory;
use std::alloc::Global;

/// By node that stands for a part, whether the part turns: a kept edge leads from one of its nodes to one of them.
pub fn turning_parts(
    alloc: Global,
    graph: &CodeGraph,
    kept: &[bool],
    roots: &[usize],
) -> Result<Vec<bool>, NoMemory>
    requires kept { length kept.now ≡ length graph.now.code.edges }
    requires roots { AreNumbers (length graph.now.code.nodes) (length graph.now.code.nodes) roots.now }
    ensures { IfOk result (λ turning. vec_len turning ≡ length graph.now.code.nodes) }
{
    let mut turning = vec![in alloc; false; graph.node_count()]?;
    for edge in 0..graph.edge_count() {
        if let Some(to) = graph.target(edge) {
            let root = roots[to];
            if kept[edge] && roots[graph.source(edge)] == root {
                turning[root] = true;
            }
        }
    }
    Ok(turning)
}

// Marks the nodes to which edges lead from other parts.
fn mark_entered(entered: &mut [bool], graph: &CodeGraph, roots: &[usize])
    requires size { length entered.old ≡ length graph.now.code.nodes }
    requires roots { AreNumbers (length graph.now.code.nodes) (length graph.now.code.nodes) roots.now }
    ensures { length entered.new ≡ length entered.old }
{
    for edge in 0..graph.edge_count() {
        if let Some(to) = graph.target(edge) {
            if roots[graph.source(edge)] != roots[to] {
                entered[to] = true;
            }
        }
    }
}

/// By node, whether it is entered from outside its part: by an edge, or at the begin of its function.
pub fn entered_nodes(
    alloc: Global,
    graph: &CodeGraph,
    roots: &[usize],
) -> Result<Vec<bool>, NoMemory>
    requires { AreNumbers (length graph.now.code.nodes) (length graph.now.code.nodes) roots.now }
    ensures { IfOk result (λ entered. vec_len entered ≡ length graph.now.code.nodes) }
{
    let mut entered = vec![in alloc; false; graph.node_count()]?;
    for function in 0..graph.function_count() {
        entered[graph.entry_node(function)] = true;
    }
    mark_entered(&mut entered, graph, roots);
    Ok(entered)
}
