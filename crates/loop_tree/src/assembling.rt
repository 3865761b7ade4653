//! A tree of loops from its parts.

ghost use Rattle.std.specs.Prelude.{◌≡◌, length, map, IfOk};
ghost use Rattle.flow_graph.specs.FlowGraph.{IsFlowGraph};
ghost use Rattle.loop_file.specs.Notes.{AreLoopNotes};
ghost use Rattle.loop_forest.specs.Found.{loops_seen, AreNaturalLoops};
ghost use Rattle.loop_forest.specs.Tree.{ArePlainOrdered, IsTreeOf};
ghost use Rattle.loop_tree.specs.Backs.{AreBacks};

use crate::natural::NaturalLoops;
use crate::trips::trips_of;
use flow_graph::CodeGraph;
use graph_algorithms::nest_loops;
use loop_file::LoopNotes;
use loop_forest::{LoopParts, LoopTree};
use scale_base::NoMemory;
use std::alloc::Global;

/// The bounds of loops.
fn bounds_of(alloc: Global, notes: &LoopNotes) -> Result<Vec<u32>, NoMemory>
    ensures in_range { AreLoopNotes notes.now }
    ensures bounds { IfOk result (λ bounds. bounds.items ≡ map (λ note. note.bound) notes.now) }
{
    let mut bounds = Vec::new(alloc);
    for k in 0..notes.count() {
        bounds.push(notes.note(k).bound)?;
    }
    Ok(bounds)
}

/// Whether the back edges of loops are counted.
fn counted_of(alloc: Global, notes: &LoopNotes) -> Result<Vec<bool>, NoMemory>
    ensures { IfOk result (λ counted. counted.items ≡ map (λ note. note.counted) notes.now) }
{
    let mut counted = Vec::new(alloc);
    for k in 0..notes.count() {
        counted.push(notes.note(k).counted)?;
    }
    Ok(counted)
}

/// By edge the loop whose back edge it is, and the nodes in an order along the other edges.
#[derive(Drop)]
pub struct EdgeOrder {
    pub backs: Vec<Option<usize>>,
    pub order: Vec<usize>,
}

/// The tree of the loops of notes, with their back edges and an order along plain edges.
pub fn assemble(
    alloc: Global,
    graph: &CodeGraph,
    notes: &LoopNotes,
    found: NaturalLoops,
    edges: EdgeOrder,
) -> Result<LoopTree, NoMemory>
    requires flow { IsFlowGraph graph.now }
    requires loops { AreNaturalLoops graph.now notes.now found }
    requires backs { AreBacks graph.now found.headers found.bodies (length graph.now.code.edges) edges.backs.items }
    requires order { ArePlainOrdered graph.now (loops_seen graph.now notes.now found) edges.order.items }
    ensures { IfOk result (λ tree. IsTreeOf graph.now notes.now tree) }
{
    let nesting = nest_loops(alloc, &found.bodies, &found.headers, graph.node_count())?;
    let (innermost, parent) = nesting.into_parts();
    let bounds = bounds_of(alloc, notes)?;
    let counted = counted_of(alloc, notes)?;
    let least_trips = trips_of(alloc, graph, notes, &found)?;
    Ok(LoopTree::of(LoopParts {
        headers: found.headers,
        bounds,
        counted,
        least_trips,
        bodies: found.bodies,
        backs: edges.backs,
        innermost,
        parent,
        order: edges.order,
    }))
}
