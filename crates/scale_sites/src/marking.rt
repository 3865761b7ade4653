//! What the marks of a program's edges are chosen by.

use flow_graph::CodeGraph;
use loop_forest::LoopTree;

/// A graph, its loops, those of them that are counted, and the cycles of slack from which on an edge has a switch.
#[derive(Clone, Copy)]
pub struct Marking<'a> {
    pub graph: &'a CodeGraph,
    pub tree: &'a LoopTree,
    pub counted: &'a [usize],
    pub min_gain: u32,
}
