//! How the bodies of loops are entered, and how deep they lie.

ghost use Rattle.std.specs.Prelude.{◌≡◌, ◌+◌, ◌<◌, ◌≤◌, ◌↔◌, ℕ, true, length, slice_get, slice_index, Some};
ghost use Rattle.scale_base.specs.Answer.{AnswersBy};
ghost use Rattle.flow_graph.specs.FlowGraph as flow;
ghost use Rattle.graph_algorithms.specs.Bodies.{IsIn, AreNodes, IsLeastPair};
ghost use Rattle.loop_tree.specs.Passes.{IsSmallGraph, AreGraphEdges, IsReady, AreOwned, IsSidePair, IsEntryTested, AreEntriesTested, AreShallow};
ghost use Rattle.loop_forest.specs.Noted.{HasBackEdge};

use crate::natural::back_edges::loop_body;
use crate::natural::extent::{LoopGroup, NotedLoops};
use crate::natural::groups::check_group;
use crate::natural::headers::number_of;
use flow_graph::CodeGraph;
use graph_algorithms::{BodySearch, lesser_pair};
use loop_file::LoopNotes;
use scale_base::{Refusal, Stop};
use std::alloc::Global;

// Loops may be nested so deep.
const MOST_DEPTH: usize = 16;

// So many loops are looked at at once, each by a bit of a word.
const GROUP: usize = 64;

fn is_among(nodes: &[usize], node: usize) -> bool
    ensures { (result ≡ true) ↔ IsIn nodes.now node }
{
    for other in nodes {
        if *other == node {
            return true;
        }
    }
    false
}

/// The node at the entry of a node's function.
pub fn entry_of(graph: &CodeGraph, node: usize) -> usize
    requires graph { IsSmallGraph graph.now }
    requires node { node < length graph.now.code.nodes }
    ensures { slice_get graph.now.code.nodes result ≡ Some ((flow.graph graph.now).entry
        ((flow.graph graph.now).owner (slice_index graph.now.code.nodes node))) }
{
    graph.entry_node(graph.owner(node))
}

// How the body of a loop is entered past its header: the least two nodes, of which the entry of the function stands for both.
fn side_entry(
    search: &mut BodySearch<'_>,
    graph: &CodeGraph,
    header: usize,
    body: &[usize],
) -> Option<(usize, usize)>
    requires edges { AreGraphEdges graph.now search.old }
    requires header { header < length graph.now.code.nodes }
    requires nodes { AreNodes (length graph.now.code.nodes) body.now }
    requires owned { AreOwned graph.now header body.now }
    ensures entry { IsLeastPair (IsSidePair graph.now search.old header body.now) result }
    ensures same { search.new ≡ search.old }
{
    let least = search.side_entry(header, body);
    let entry = entry_of(graph, header);
    if entry != header && is_among(body, entry) {
        return Some(lesser_pair(least, (entry, entry)));
    }
    least
}

/// Refuses a loop whose body is entered past its header.
pub fn check_entry(
    alloc: Global,
    search: &mut BodySearch<'_>,
    noted: &NotedLoops<'_>,
    k: usize,
) -> Result<(), Stop>
    requires ready { IsReady noted.now.graph.now search.old noted.now.notes.now noted.now.headers.now }
    requires within { k < length noted.now.notes.now }
    ensures entry { AnswersBy (λ x. x) result (IsEntryTested noted.now.graph.now noted.now.notes.now k) }
    ensures same { search.new ≡ search.old }
{
    let header = noted.headers[k];
    let body = loop_body(alloc, search, noted.graph, noted.notes.note(k), header)?;
    match side_entry(search, noted.graph, header, &body) {
        Some((from, to)) => Err(Stop::Refused(Refusal::SideEntry(
            number_of(k),
            noted.graph.node(from),
            noted.graph.node(to),
        ))),
        None => Ok(()),
    }
}

/// By node, in how many bodies it is. A loop whose body is entered past its header is refused.
pub fn check_entries(
    alloc: Global,
    search: &mut BodySearch<'_>,
    graph: &CodeGraph,
    notes: &LoopNotes,
    headers: &[usize],
) -> Result<Vec<usize>, Stop>
    requires ready { IsReady graph.now search.old notes.now headers.now }
    requires back_edges { (k : ℕ) → k < length notes.now → HasBackEdge graph.now notes.now k }
    ensures entries { AnswersBy (λ depths. depths.items) result (AreEntriesTested graph.now notes.now) }
    ensures same { search.new ≡ search.old }
{
    let noted = NotedLoops {
        graph,
        notes,
        headers,
    };
    let mut depths = vec![in alloc; 0; graph.node_count()]?;
    let mut first = 0;
    while first < notes.count() {
        let last = notes.count().min(first + GROUP);
        check_group(
            alloc,
            search,
            &noted,
            &mut depths,
            LoopGroup { first, last },
        )?;
        first = last;
    }
    Ok(depths)
}

/// Refuses a loop whose header is in too many bodies.
pub fn check_depths(headers: &[usize], depths: &[usize]) -> Result<(), Stop>
    requires few { length headers.now ≤ 4096 }
    requires within { (k : ℕ) → k < length headers.now → slice_index headers.now k < length depths.now }
    ensures { AnswersBy (λ x. x) result (AreShallow headers.now depths.now) }
{
    for (k, header) in headers.iter().enumerate() {
        if depths[*header] > MOST_DEPTH {
            return Err(Stop::Refused(Refusal::TooDeep(number_of(k))));
        }
    }
    Ok(())
}
