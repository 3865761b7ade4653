//! The natural loops of a program's graph by their notes: the nodes of each body, and which loops are refused.

ghost use Rattle.scale_base.specs.Answer.{AnswersBy};
ghost use Rattle.loop_forest.specs.Refused.{AreLoopsFound};

mod back_edges;
mod bodies;
mod entries;
mod extent;
mod groups;
mod headers;
mod loops;

use back_edges::check_back_edges;
use bodies::keep_bodies;
use entries::{check_depths, check_entries};
pub use extent::extent_of;
use flow_graph::CodeGraph;
use graph_algorithms::BodySearch;
use headers::{find_headers, least_pair, number_of};
use loop_file::LoopNotes;
pub use loops::NaturalLoops;
use scale_base::{Refusal, Stop};
use std::alloc::Global;

/// The natural loops of a graph by their notes, in the notes' order; or why they are refused. The body of each loop is found
/// twice, so that no bodies are kept of loops that are refused: first those of 64 loops at once, and then each by itself.
pub fn find_loops(alloc: Global, graph: &CodeGraph, notes: &LoopNotes) -> Result<NaturalLoops, Stop>
    ensures { AnswersBy (λ t. t) result (AreLoopsFound graph.now notes.now) }
{
    let count = graph.node_count();
    let headers = find_headers(alloc, graph, notes)?;
    if let Some((one, two)) = least_pair(alloc, &headers, count)? {
        return Err(Stop::Refused(Refusal::SameHeader(number_of(one), number_of(two))));
    }
    let mut search = BodySearch::new(alloc, graph.sources(), graph.targets(), count)?;
    check_back_edges(alloc, &search, graph, notes, &headers)?;
    let depths = check_entries(alloc, &mut search, graph, notes, &headers)?;
    check_depths(&headers, &depths)?;
    let bodies = keep_bodies(alloc, &mut search, graph, notes, &headers)?;
    Ok(NaturalLoops { headers, bodies })
}
