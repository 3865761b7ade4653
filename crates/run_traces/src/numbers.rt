//! What is known of a program before any switch stands in it.

ghost use Rattle.std.specs.Prelude.{◌≡◌, ℕ, Bool, List, length};
ghost use Rattle.scale_base.specs.Image.{Image};
ghost use Rattle.code_text.specs.Text.{text_of};
ghost use Rattle.flow_graph.specs.FlowGraph.{IsGraphOf};
ghost use Rattle.loop_file.specs.declared.notes.LoopNote.{LoopNote};
ghost use Rattle.loop_forest.specs.Tree.{IsTreeOf};
ghost use Rattle.worst_cycles.specs.Worst.{HasLeftSizes};
ghost use Rattle.least_cycles.specs.Found.{AreSmallLeast};

use crate::counting::{most_passes, number_at};
use crate::tracing::other_of;
use flow_graph::{CodeGraph, Weights};
use least_cycles::{LeastNumbers, least};
use loop_forest::LoopTree;
use power_model::Power;
use scale_base::{Edge, NoMemory, Stop};
use std::alloc::Global;
use worst_cycles::{WorstNumbers, worst};

/// An edge, the other one of its branch, the loop of which it is a back edge, and its numbers in cycles: its cost, its slack, what is left at most
/// and at least of the run behind it; and how often a run goes through its
/// instruction at most, and over the edge itself.
#[derive(Clone, Copy)]
pub struct TracedEdge {
    pub edge: Edge,
    pub other: Option<usize>,
    pub back: Option<usize>,
    pub cost: u64,
    pub slack: u64,
    pub rest: u64,
    pub least: Option<u128>,
    pub visits: u64,
    pub passes: u64,
}

/// The numbers of a program's edges, and its worst cycles.
#[derive(Drop)]
pub struct Numbers {
    pub edges: Vec<TracedEdge>,
    pub worst: u64,
}

/// By edge its cost and the loop of which it is a back edge, and by node how often a run goes through it at most.
#[derive(Drop)]
struct Plain<'a> {
    weights: &'a Weights,
    backs: &'a [Option<usize>],
    visits: &'a [u64],
}

impl Plain<'_> {
    /// The cost of edge `e`.
    fn cost(&self, e: usize) -> u64 {
        if e < self.weights.count() {
            u64::from(*self.weights.get(e))
        } else {
            0
        }
    }

    /// How often a run goes over edge `e` at most: not more often than through either of its nodes.
    fn passes(&self, graph: &CodeGraph, e: usize) -> u64 {
        if e >= graph.edge_count() {
            return 0;
        }
        let from = number_at(self.visits, graph.source(e));
        match graph.target(e) {
            Some(v) => from.min(number_at(self.visits, v)),
            None => from,
        }
    }

    /// The loop of which edge `e` is a back edge.
    fn back(&self, e: usize) -> Option<usize> {
        if e < self.backs.len() {
            self.backs[e]
        } else {
            None
        }
    }
}

/// The numbers of all edges.
fn edge_numbers(
    alloc: Global,
    graph: &CodeGraph,
    plain: &Plain<'_>,
    worst: &WorstNumbers,
    least: &LeastNumbers,
) -> Result<Vec<TracedEdge>, NoMemory>
    requires left { HasLeftSizes graph.now worst.now }
    requires least { AreSmallLeast graph.now least.now }
{
    let mut edges = Vec::new(alloc);
    for e in 0..graph.edge_count() {
        edges.push(TracedEdge {
            edge: graph.edge(e),
            other: other_of(graph, e),
            back: plain.back(e),
            cost: plain.cost(e),
            slack: worst.slack(e),
            rest: worst.rest(e),
            least: least.to_end_after(e),
            visits: number_at(plain.visits, graph.source(e)),
            passes: plain.passes(graph, e),
        })?;
    }
    Ok(edges)
}

/// The numbers of a program; or the refusal where its worst cycles are too many.
pub fn numbers_of(
    alloc: Global,
    graph: &CodeGraph,
    tree: &LoopTree,
    power: &Power,
) -> Result<Numbers, Stop>
    requires { (image : Image) × (notes : List LoopNote) × IsGraphOf (text_of image) graph.now × IsTreeOf graph.now notes tree.now }
{
    let weights = graph.base_weights(alloc, &power.costs)?;
    let worst = worst(alloc, graph, tree, &weights)?;
    let least = least(alloc, graph, tree, &weights)?;
    let visits = most_passes(alloc, graph, tree)?;
    let plain = Plain {
        weights: &weights,
        backs: tree.backs(),
        visits: &visits,
    };
    let edges = edge_numbers(alloc, graph, &plain, &worst, &least)?;
    Ok(Numbers {
        edges,
        worst: worst.total(),
    })
}
