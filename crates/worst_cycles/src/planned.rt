//! A graph whose nodes are in order, and one whose nodes are all visited.

use crate::plan::Plan;
use crate::visits::Visit;
use flow_graph::{CodeGraph, Weights};
use loop_forest::LoopTree;

/// A graph, its loops and the weights of its edges, with what is known of the nodes before the pass.
#[derive(Clone, Copy)]
pub struct PlannedGraph<'a> {
    pub graph: &'a CodeGraph,
    pub tree: &'a LoopTree,
    pub weights: &'a Weights,
    pub plan: &'a Plan,
}

/// Such a graph with what the pass found at each node.
#[derive(Clone, Copy)]
pub struct VisitedGraph<'a> {
    pub planned: PlannedGraph<'a>,
    pub visits: &'a [Visit],
}
