//! The edges to each node of a graph.

use flow_graph::CodeGraph;
use scale_base::NoMemory;
use std::alloc::Global;

/// By node the last edge to it, and by edge another one to the same node.
#[derive(Drop)]
pub struct Chains {
    entered: Vec<Option<usize>>,
    besides: Vec<Option<usize>>,
}

impl Chains {
    /// Those of a graph.
    pub fn of(alloc: Global, graph: &CodeGraph) -> Result<Chains, NoMemory> {
        let mut entered: Vec<Option<usize>> = vec![in alloc; None; graph.node_count()]?;
        let mut besides: Vec<Option<usize>> = Vec::new(alloc);
        for e in 0..graph.edge_count() {
            let to = graph.target(e).unwrap_or(usize::MAX);
            besides.push(entered.get(to).copied().flatten())?;
            if to < entered.len() {
                entered[to] = Some(e);
            }
        }
        Ok(Chains { entered, besides })
    }

    /// The last edge to a node.
    pub fn last(&self, node: usize) -> Option<usize> {
        self.entered.get(node).copied().flatten()
    }

    /// The edge to the same node before another one.
    pub fn before(&self, e: usize) -> Option<usize> {
        self.besides.get(e).copied().flatten()
    }

    /// How many edges there are.
    pub fn count(&self) -> usize {
        self.besides.len()
    }
}
