//! The bodies of loops.

ghost use Rattle.std.specs.Prelude.{◌≡◌, ℕ, ◌<◌, ◌≤◌, ◌↔◌, true, IfOk};
ghost use Rattle.graph_algorithms.specs.Edges.{EdgeView, AreEdges};
ghost use Rattle.graph_algorithms.specs.Bodies.{in_node_ranges, IsBody, HasEdgeBack, AreNodes, IsSideEdge, IsLeastPair};
ghost use Rattle.graph_algorithms.specs.Groups.{IsFlagged, IsInSpan, AreLoopExtents, AreBodyBits, AreGroup};

use crate::bodies::edges::IncomingEdges;
use crate::bodies::entries::{has_back_edge, least_side, mark_nodes};
use crate::bodies::extent::{LoopExtent, NodeRange, is_in_extent};
use crate::bodies::groups::{GroupBodies, add_body, find_aside, find_headers, search_together};
use crate::bodies::span::span_of;
use crate::bodies::visit::{clear_marks, fill_body};
use scale_base::NoMemory;
use std::alloc::Global;
use std::marker::Model;

/// A search for the bodies of loops in one graph. The edges are chained by their targets once for all loops. The search of
/// a body then looks only at the edges into its nodes and its header, and compares the source of each with the ranges of
/// the extent, which should be few. Contracts see the edges.
#[derive(Drop)]
pub struct BodySearch<'a> {
    edges: IncomingEdges<'a>,
    // By node, whether the search that runs has found it; between searches none is.
    found: Vec<bool>,
}

impl<'a> Model for BodySearch<'a> {
    ghost use Rattle.std.specs.Prelude.{◌≡◌, length};
    ghost use Rattle.graph_algorithms.specs.Edges.{EdgeView};
    ghost use Rattle.graph_algorithms.specs.BodySearch.{AreUnmarked};

    ghost Value = { EdgeView };

    ghost view = { λ s. s.edges };

    ghost invariant = { λ s. (length s.found.items ≡ s.edges.count) × AreUnmarked s.found.items };
}

impl<'a> BodySearch<'a> {
    /// A search among the edges that start at `sources` and lead to `targets`, by the number of the edge; None is where an
    /// edge leads nowhere. The nodes are the numbers below `count`.
    pub fn new(
        alloc: Global,
        sources: &'a [usize],
        targets: &'a [Option<usize>],
        count: usize,
    ) -> Result<BodySearch<'a>, NoMemory>
        requires { AreEdges sources.now targets.now count }
        ensures { IfOk result (λ search. search ≡ record { sources = sources.now; targets = targets.now; count = count }) }
    {
        let edges = IncomingEdges::new(alloc, sources, targets, count)?;
        let found = vec![in alloc; false; count]?;
        Ok(BodySearch { edges, found })
    }

    /// The body of the loop with this header and extent: the nodes of the extent from which a nonempty walk within it
    /// leads to the header, in no order. There is none if the header isn't in the extent. The error is want of memory,
    /// after which the search can be used again.
    pub fn body(
        &mut self,
        alloc: Global,
        header: usize,
        extent: &[NodeRange],
    ) -> Result<Vec<usize>, NoMemory>
        requires { header < self.old.count }
        ensures body { IfOk result (λ body. IsBody self.old.sources self.old.targets (in_node_ranges extent.now) header body.items) }
        ensures same { self.new ≡ self.old }
    {
        let mut body = Vec::new(alloc);
        if !is_in_extent(extent, header) {
            return Ok(body);
        }
        let filled = fill_body(&self.edges, extent, &mut self.found, &mut body, header);
        clear_marks(&mut self.found, &body);
        filled?;
        Ok(body)
    }

    // By node, the loops whose bodies have it, from one body after the other.
    fn search_each(&mut self, alloc: Global, loops: &[LoopExtent]) -> Result<Vec<u64>, NoMemory>
        requires { AreLoopExtents self.old.count loops.now }
        ensures bodies { IfOk result (λ bodies. AreBodyBits self.old loops.now bodies.items) }
        ensures same { self.new ≡ self.old }
    {
        let mut words: Vec<u64> = vec![in alloc; 0; self.edges.count()]?;
        for (bit, one) in loops.iter().enumerate() {
            let body = self.body(alloc, one.header, &one.ranges)?;
            add_body(&mut words, &body, bit);
        }
        Ok(words)
    }

    /// The bodies of at most 64 loops, and those of them that are entered aside. It goes through the nodes from the first of
    /// their extents to the last, and the edges to them, once or a few times for all these loops; for code that is laid out
    /// against its run, once for each.
    pub fn group(&mut self, alloc: Global, loops: &[LoopExtent]) -> Result<GroupBodies, NoMemory>
        requires { AreLoopExtents self.old.count loops.now }
        ensures group { IfOk result (λ group. AreGroup self.old loops.now group.bodies.items group.aside) }
        ensures within { IfOk result (λ group. group.nodes.to ≤ self.old.count) }
        ensures nodes { IfOk result (λ group. (v i : ℕ) → IsFlagged group.bodies.items v i → IsInSpan group.nodes v) }
        ensures same { self.new ≡ self.old }
    {
        let count = self.edges.count();
        let nodes = span_of(loops, count);
        let bodies = match search_together(alloc, &self.edges, loops, nodes)? {
            Some(bodies) => bodies,
            None => self.search_each(alloc, loops)?,
        };
        let headers = find_headers(alloc, loops, count)?;
        let aside = find_aside(&self.edges, &bodies, &headers, nodes);
        Ok(GroupBodies {
            bodies,
            nodes,
            aside,
        })
    }

    /// Whether an edge leads from the extent to the header. It looks at the edges to the header alone.
    pub fn has_back_edge(&self, header: usize, extent: &[NodeRange]) -> bool
        requires { header < self.now.count }
        ensures { (result ≡ true) ↔ HasEdgeBack self.now.sources self.now.targets (in_node_ranges extent.now) header }
    {
        has_back_edge(&self.edges, header, extent)
    }

    /// Of the edges from a node outside the body to a node of it that isn't the header, the least by the numbers of the
    /// nodes where they start and then of those to which they lead. It looks at the edges to the body's nodes alone.
    pub fn side_entry(&mut self, header: usize, body: &[usize]) -> Option<(usize, usize)>
        requires { AreNodes self.old.count body.now }
        ensures entry { IsLeastPair (IsSideEdge self.old.sources self.old.targets header body.now) result }
        ensures same { self.new ≡ self.old }
    {
        mark_nodes(&mut self.found, body);
        let least = least_side(&self.edges, &self.found, header, body);
        clear_marks(&mut self.found, body);
        least
    }
}
