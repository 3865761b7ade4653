//! The extents of loops by the numbers of nodes.

ghost use Rattle.std.specs.Prelude.{◌≡◌, ◌≤◌, length, slice_get, Some, IfOk};
ghost use Rattle.loop_tree.specs.Passes.{IsSmallGraph, IsCountBelow, IsExtent, AreHeaderNumbers, AreExtents};

use flow_graph::CodeGraph;
use graph_algorithms::{LoopExtent, NodeRange};
use loop_file::{LoopNote, LoopNotes};
use scale_base::NoMemory;
use std::alloc::Global;

// How many nodes have addresses below one.
fn nodes_below(graph: &CodeGraph, at: u32) -> usize
    requires { IsSmallGraph graph.now }
    ensures { IsCountBelow graph.now.code.nodes at result }
{
    let mut from = 0;
    let mut to = graph.node_count();
    while from < to {
        let middle = from + (to - from) / 2;
        if graph.node(middle) < at {
            from = middle + 1;
        } else {
            to = middle;
        }
    }
    from
}

/// The extent of a loop: the node of its header, and those with addresses in the ranges of its note.
pub fn extent_of(
    alloc: Global,
    graph: &CodeGraph,
    note: &LoopNote,
    header: usize,
) -> Result<Vec<NodeRange>, NoMemory>
    requires graph { IsSmallGraph graph.now }
    requires header { slice_get graph.now.code.nodes header ≡ Some note.now.header }
    ensures { IfOk result (λ extent. IsExtent graph.now note.now extent.items) }
{
    let mut extent = Vec::new(alloc);
    extent.push(NodeRange {
        from: header,
        to: header + 1,
    })?;
    for k in 0..note.ranges.count() {
        let range = note.ranges.get(k);
        extent.push(NodeRange {
            from: nodes_below(graph, range.from),
            to: nodes_below(graph, range.to),
        })?;
    }
    Ok(extent)
}

/// The loops of a program's notes, with the nodes of their headers in its graph, by number.
#[derive(Clone, Copy)]
pub struct NotedLoops<'a> {
    pub graph: &'a CodeGraph,
    pub notes: &'a LoopNotes,
    pub headers: &'a [usize],
}

/// The loops from one number up to another, which is left out.
#[derive(Clone, Copy)]
pub struct LoopGroup {
    pub first: usize,
    pub last: usize,
}

/// The loops of a group, with their extents.
pub fn group_extents(
    alloc: Global,
    noted: &NotedLoops<'_>,
    numbers: LoopGroup,
) -> Result<Vec<LoopExtent>, NoMemory>
    requires graph { IsSmallGraph noted.now.graph.now }
    requires headers { AreHeaderNumbers noted.now.graph.now noted.now.notes.now noted.now.headers.now }
    requires order { numbers.first ≤ numbers.last }
    requires within { numbers.last ≤ length noted.now.notes.now }
    ensures { IfOk result (λ loops. AreExtents noted.now.graph.now noted.now.notes.now noted.now.headers.now numbers.first numbers.last
        loops.items) }
{
    let mut loops = Vec::new(alloc);
    for k in numbers.first..numbers.last {
        let header = noted.headers[k];
        let ranges = extent_of(alloc, noted.graph, noted.notes.note(k), header)?;
        loops.push(LoopExtent { header, ranges })?;
    }
    Ok(loops)
}
