//! The edges that start at the end of a block.

ghost use Rattle.std.specs.Prelude.{◌≡◌, ◌<◌, length, slice_index, IfOk};
ghost use Rattle.flow_graph.specs.FlowGraph.{graph as graph_seen};
ghost use Rattle.loop_forest.specs.Tree.{loops};
ghost use Rattle.plan_graphs.specs.Drawn.{Told, IsLedTo, left_behind, IsEdgeDrawn, AreEdgesFrom};
ghost use Rattle.plan_graphs.specs.Sketched.{IsSketch, Holds, taken_kept};

use crate::marks::marks_at;
use crate::plan::{DrawnEdge, Leads};
use crate::sketch::{Sketch, number_at};
use flow_graph::CodeGraph;
use scale_base::NoMemory;
use std::alloc::Global;

/// Where edge `e` leads.
fn leads_of(graph: &CodeGraph, e: usize) -> Leads
    requires { e < length graph.now.code.edges }
    ensures { IsLedTo (graph_seen graph.now) e result }
{
    match graph.target(e) {
        Some(k) => Leads::Block(graph.node(k)),
        None => {
            if graph.is_return(e) {
                Leads::Return
            } else if graph.is_exit(e) {
                Leads::Exit
            } else {
                Leads::Nowhere
            }
        }
    }
}

/// The cycles that are left at most behind edge `e`.
fn left_of(sketch: &Sketch<'_, '_>, e: usize) -> u64
    requires sketch { IsSketch sketch.now }
    requires edge { e < length sketch.now.graph.now.code.edges }
    ensures { (told : Told) → Holds sketch.now told → result ≡ left_behind (graph_seen sketch.now.graph.now)
        (loops sketch.now.graph.now sketch.now.tree.now) told.numbers e }
{
    if sketch.graph.is_return(e) {
        sketch
            .worst
            .context(sketch.graph.owner(sketch.graph.source(e)))
    } else {
        sketch.worst.rest(e)
    }
}

/// How often the worst walk takes edge `e`.
fn taken_of(sketch: &Sketch<'_, '_>, e: usize) -> u64
    ensures { result ≡ taken_kept sketch.now.walk.now e }
{
    match sketch.walk {
        None => 0,
        Some(walk) => number_at(&walk.taken, e),
    }
}

fn draw_edge(alloc: Global, sketch: &Sketch<'_, '_>, e: usize) -> Result<DrawnEdge, NoMemory>
    requires sketch { IsSketch sketch.now }
    requires edge { e < length sketch.now.graph.now.code.edges }
    ensures { IfOk result (λ x. (told : Told) → Holds sketch.now told → IsEdgeDrawn sketch.now.graph.now sketch.now.tree.now told e x) }
{
    let marks = marks_at(alloc, sketch, e)?;
    Ok(DrawnEdge {
        edge: sketch.graph.edge(e),
        leads: leads_of(sketch.graph, e),
        left: left_of(sketch, e),
        marks,
        taken: taken_of(sketch, e),
    })
}

/// The edges that start at node `k`.
pub fn draw_edges(
    alloc: Global,
    sketch: &Sketch<'_, '_>,
    k: usize,
) -> Result<Vec<DrawnEdge>, NoMemory>
    requires sketch { IsSketch sketch.now }
    requires node { k < length sketch.now.graph.now.code.nodes }
    ensures some { IfOk result (λ xs. 0 < length xs.items) }
    ensures edges { IfOk result (λ xs. (told : Told) → Holds sketch.now told →
        AreEdgesFrom sketch.now.graph.now sketch.now.tree.now told (slice_index sketch.now.graph.now.code.nodes k) xs.items) }
{
    let (first, end) = sketch.graph.edges_of(k);
    let mut edges = Vec::new(alloc);
    for e in first..end {
        edges.push(draw_edge(alloc, sketch, e)?)?;
    }
    Ok(edges)
}
