//! The bodies of loops that are accepted.

ghost use Rattle.std.specs.Prelude.{◌≡◌, length, map, slice_get, Some, IfOk};
ghost use Rattle.loop_forest.specs.Found.{IsAscending};
ghost use Rattle.loop_tree.specs.Passes.{AreGraphEdges, IsReady, IsNumberedBody, AreBodies};

use crate::natural::back_edges::loop_body;
use flow_graph::CodeGraph;
use graph_algorithms::BodySearch;
use loop_file::{LoopNote, LoopNotes};
use scale_base::NoMemory;
use std::alloc::Global;

// The body of a loop, by ascending numbers.
fn sorted_body(
    alloc: Global,
    search: &mut BodySearch<'_>,
    graph: &CodeGraph,
    note: &LoopNote,
    header: usize,
) -> Result<Vec<usize>, NoMemory>
    requires edges { AreGraphEdges graph.now search.old }
    requires header { slice_get graph.now.code.nodes header ≡ Some note.now.header }
    ensures body { IfOk result (λ body. IsNumberedBody graph.now note.now body.items) }
    ensures ascending { IfOk result (λ body. IsAscending (length graph.now.code.nodes) body.items) }
    ensures same { search.new ≡ search.old }
{
    let mut body = loop_body(alloc, search, graph, note, header)?;
    body.sort_unstable();
    Ok(body)
}

/// By loop, its body.
pub fn keep_bodies(
    alloc: Global,
    search: &mut BodySearch<'_>,
    graph: &CodeGraph,
    notes: &LoopNotes,
    headers: &[usize],
) -> Result<Vec<Vec<usize>>, NoMemory>
    requires { IsReady graph.now search.old notes.now headers.now }
    ensures bodies { IfOk result (λ bodies. AreBodies graph.now notes.now (length notes.now) (map (λ body. body.items) bodies.items)) }
    ensures same { search.new ≡ search.old }
{
    let mut bodies = Vec::new(alloc);
    for k in 0..notes.count() {
        bodies.push(sorted_body(alloc, search, graph, notes.note(k), headers[k])?)?;
    }
    Ok(bodies)
}
