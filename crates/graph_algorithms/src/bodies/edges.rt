//! Edges by number, and those that lead to a node, as a chain.

ghost use Rattle.std.specs.Prelude.{◌≡◌, ℕ, ◌<◌, length, IfOk, slice_get, Some};
ghost use Rattle.graph_algorithms.specs.Keys.{HasKey, IsLastBelow};
ghost use Rattle.graph_algorithms.specs.Edges.{EdgeView, AreEdges};

use crate::{Chains, find_chains};
use scale_base::NoMemory;
use std::alloc::Global;
use std::marker::Model;

/// The edges of a graph, chained by the nodes to which they lead. Contracts see where each edge starts and where it
/// leads, and how many nodes there are.
#[derive(Drop)]
pub struct IncomingEdges<'a> {
    sources: &'a [usize],
    // What the chains were made of: the search goes by the chains alone, and the contracts speak of these.
    targets: &'a [Option<usize>],
    count: usize,
    chains: Chains,
}

impl<'a> Model for IncomingEdges<'a> {
    ghost use Rattle.graph_algorithms.specs.Edges.{EdgeView, AreChained};

    ghost Value = { EdgeView };

    ghost view = { λ e. record { sources = e.sources.now; targets = e.targets.now; count = e.count } };

    ghost invariant = { λ e. AreChained e.sources.now e.targets.now e.count e.chains };
}

impl<'a> IncomingEdges<'a> {
    /// Chains edges among `count` nodes.
    pub fn new(
        alloc: Global,
        sources: &'a [usize],
        targets: &'a [Option<usize>],
        count: usize,
    ) -> Result<IncomingEdges<'a>, NoMemory>
        requires { AreEdges sources.now targets.now count }
        ensures { IfOk result (λ edges. edges ≡ record { sources = sources.now; targets = targets.now; count = count }) }
    {
        let chains = find_chains(alloc, targets, count)?;
        Ok(IncomingEdges {
            sources,
            targets,
            count,
            chains,
        })
    }

    /// How many nodes there are. Edges start at these nodes, and lead to them.
    pub fn count(&self) -> usize
        ensures count { result ≡ self.now.count }
        ensures edges { AreEdges self.now.sources self.now.targets self.now.count }
    {
        self.count
    }

    /// The last edge to a node.
    pub fn last(&self, node: usize) -> Option<usize>
        requires { node < self.now.count }
        ensures { IsLastBelow self.now.targets (length self.now.targets) node result }
    {
        self.chains.last(node)
    }

    /// The edge before this one to the same node.
    pub fn before(&self, edge: usize) -> Option<usize>
        requires { edge < length self.now.targets }
        ensures { (node : ℕ) → HasKey self.now.targets edge node → IsLastBelow self.now.targets edge node result }
    {
        self.chains.before(edge)
    }

    /// The node where an edge starts.
    pub fn source(&self, edge: usize) -> usize
        requires { edge < length self.now.targets }
        ensures source { slice_get self.now.sources edge ≡ Some result }
        ensures within { result < self.now.count }
    {
        *self.sources.get(edge).unwrap()
    }
}
