//! The bodies of loops, and the edges that turn them back.

ghost use Rattle.std.specs.Prelude.{◌≡◌, ◌↔◌, true, length, slice_get, Some, IfOk};
ghost use Rattle.scale_base.specs.Answer.{AnswersBy};
ghost use Rattle.loop_tree.specs.Passes.{AreGraphEdges, IsReady, GoesBack, IsNumberedBody, AreBackEdgesFound};

use crate::natural::extent::extent_of;
use crate::natural::headers::number_of;
use flow_graph::CodeGraph;
use graph_algorithms::BodySearch;
use loop_file::{LoopNote, LoopNotes};
use scale_base::{NoMemory, Refusal, Stop};
use std::alloc::Global;

// Whether an edge leads from the body of a loop to its header: the body has each node of the extent from which one does.
fn goes_back(
    alloc: Global,
    search: &BodySearch<'_>,
    graph: &CodeGraph,
    note: &LoopNote,
    header: usize,
) -> Result<bool, NoMemory>
    requires edges { AreGraphEdges graph.now search.now }
    requires header { slice_get graph.now.code.nodes header ≡ Some note.now.header }
    ensures { IfOk result (λ has. (has ≡ true) ↔ GoesBack graph.now note.now) }
{
    let extent = extent_of(alloc, graph, note, header)?;
    Ok(search.has_back_edge(header, &extent))
}

/// The body of a loop, in no order.
pub fn loop_body(
    alloc: Global,
    search: &mut BodySearch<'_>,
    graph: &CodeGraph,
    note: &LoopNote,
    header: usize,
) -> Result<Vec<usize>, NoMemory>
    requires edges { AreGraphEdges graph.now search.old }
    requires header { slice_get graph.now.code.nodes header ≡ Some note.now.header }
    ensures body { IfOk result (λ body. IsNumberedBody graph.now note.now body.items) }
    ensures same { search.new ≡ search.old }
{
    let extent = extent_of(alloc, graph, note, header)?;
    search.body(alloc, header, &extent)
}

/// Refuses a loop that no edge turns back.
pub fn check_back_edges(
    alloc: Global,
    search: &BodySearch<'_>,
    graph: &CodeGraph,
    notes: &LoopNotes,
    headers: &[usize],
) -> Result<(), Stop>
    requires { IsReady graph.now search.now notes.now headers.now }
    ensures { AnswersBy (λ x. x) result (AreBackEdgesFound graph.now notes.now) }
{
    for k in 0..notes.count() {
        if !goes_back(alloc, search, graph, notes.note(k), headers[k])? {
            return Err(Stop::Refused(Refusal::NoBackEdge(number_of(k))));
        }
    }
    Ok(())
}
