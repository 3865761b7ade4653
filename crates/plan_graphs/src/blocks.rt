//! The basic blocks.

ghost use Rattle.std.specs.Prelude.{◌≡◌, ◌-◌, ◌<◌, length, slice_get, slice_index, Some, IfOk};
ghost use Rattle.scale_base.specs.declared.ranges.Range.{Range};
ghost use Rattle.plan_graphs.specs.Drawn.{Told, AreDrawn, IsMostLeft, IsCalledAt, IsBlockDrawn};
ghost use Rattle.plan_graphs.specs.Sketched.{IsSketch, Holds};

use crate::edges::draw_edges;
use crate::named::name_of;
use crate::nests::nest_of;
use crate::plan::{DrawnBlock, DrawnCall, DrawnEdge};
use crate::sketch::Sketch;
use flow_graph::CodeGraph;
use scale_base::NoMemory;
use std::alloc::Global;

/// The greatest number of cycles that are left behind some edges.
fn most_left(edges: &[DrawnEdge]) -> u64
    requires { 0 < length edges.now }
    ensures { IsMostLeft edges.now result }
{
    let mut most = edges[0].left;
    for edge in edges {
        if edge.left > most {
            most = edge.left;
        }
    }
    most
}

/// The number of the first node of block `b`.
fn first_node(graph: &CodeGraph, b: usize) -> usize
    requires { b < length graph.now.blocks }
    ensures node { (range : Range) → slice_get graph.now.blocks b ≡ Some range → slice_get graph.now.code.nodes result ≡ Some range.from }
    ensures within { result < length graph.now.code.nodes }
{
    let _nodes = graph.node_count();
    let _blocks = graph.block_count();
    let range = graph.block(b);
    graph.find(range.from).unwrap()
}

/// The number of the last node of block `b`.
fn last_node(graph: &CodeGraph, b: usize) -> usize
    requires { b < length graph.now.blocks }
    ensures node { (range : Range) → slice_get graph.now.blocks b ≡ Some range →
        slice_get graph.now.code.nodes result ≡ Some (range.to - 4) }
    ensures within { result < length graph.now.code.nodes }
{
    let _nodes = graph.node_count();
    let _blocks = graph.block_count();
    let range = graph.block(b);
    graph.find(range.to - 4).unwrap()
}

/// The function that node `k` calls.
fn call_of(graph: &CodeGraph, k: usize) -> Option<DrawnCall>
    requires { k < length graph.now.code.nodes }
    ensures { IsCalledAt graph.now (slice_index graph.now.code.nodes k) result }
{
    let _nodes = graph.node_count();
    let (e, _) = graph.edges_of(k);
    match graph.callee(e) {
        None => None,
        Some(f) => Some(DrawnCall {
            function: f,
            entry: graph.function(f),
        }),
    }
}

fn draw_block(alloc: Global, sketch: &Sketch<'_, '_>, b: usize) -> Result<DrawnBlock, NoMemory>
    requires sketch { IsSketch sketch.now }
    requires block { b < length sketch.now.graph.now.blocks }
    ensures { IfOk result (λ x. (told : Told) → Holds sketch.now told → IsBlockDrawn sketch.now.graph.now sketch.now.tree.now told b x) }
{
    let _nodes = sketch.graph.node_count();
    let _blocks = sketch.graph.block_count();
    let range = sketch.graph.block(b);
    let first = first_node(sketch.graph, b);
    let last = last_node(sketch.graph, b);
    let name = name_of(alloc, sketch.names, range.from)?;
    let around = nest_of(
        alloc,
        sketch.graph,
        sketch.tree,
        sketch.tree.innermost(first),
    )?;
    let edges = draw_edges(alloc, sketch, last)?;
    let left = most_left(&edges);
    Ok(DrawnBlock {
        range,
        name,
        function: sketch.graph.owner(first),
        around,
        left,
        call: call_of(sketch.graph, last),
        edges,
    })
}

/// The blocks of a program.
pub fn draw_blocks(alloc: Global, sketch: &Sketch<'_, '_>) -> Result<Vec<DrawnBlock>, NoMemory>
    requires { IsSketch sketch.now }
    ensures { IfOk result (λ xs. (told : Told) → Holds sketch.now told → AreDrawn
        (IsBlockDrawn sketch.now.graph.now sketch.now.tree.now told) (length sketch.now.graph.now.blocks) xs.items) }
{
    let mut blocks = Vec::new(alloc);
    for b in 0..sketch.graph.block_count() {
        blocks.push(draw_block(alloc, sketch, b)?)?;
    }
    Ok(blocks)
}
