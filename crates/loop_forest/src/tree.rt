//! The loops of a graph.

ghost use Rattle.std.specs.Prelude.{◌≡◌, ◌<◌, ◌≤◌, ◌↔◌, true, Some, length, slice_get, slice_index};
ghost use Rattle.cost_theory.specs.Lists.{body_of, is_among};
ghost use Rattle.loop_forest.specs.Stored.{IsStoredTree, parts_seen};

use crate::numbers::has_number;
use crate::parts::LoopParts;
use std::marker::Model;

/// The loops of a graph by number, with their nesting, and the numbers of its nodes in an order along plain edges. A loop is
/// round a node where the node is in its body. Contracts see the loops as lists over the numbers of nodes and edges.
#[derive(Drop)]
pub struct LoopTree {
    parts: LoopParts,
}

impl Model for LoopTree {
    ghost use Rattle.loop_forest.specs.Tree.{LoopView};
    ghost use Rattle.loop_forest.specs.Stored.{IsStoredTree, parts_seen};

    ghost Value = { LoopView };

    ghost view = { λ t. parts_seen t.parts };

    ghost invariant = { λ t. IsStoredTree (parts_seen t.parts) };
}

impl LoopTree {
    /// The tree of these parts.
    pub fn of(parts: LoopParts) -> LoopTree
        requires { IsStoredTree (parts_seen parts) }
        ensures { result ≡ parts_seen parts }
    {
        LoopTree { parts }
    }

    /// How many loops there are: at most 4,096.
    pub fn loop_count(&self) -> usize
        ensures count { result ≡ length self.now.headers }
        ensures few { result ≤ 4096 }
    {
        self.parts.headers.len()
    }

    /// The number of the node that is the header of loop `l`.
    pub fn header(&self, l: usize) -> usize
        requires { l < length self.now.headers }
        ensures { slice_get self.now.headers l ≡ Some result }
    {
        self.parts.headers[l]
    }

    /// How many back edges one entry of loop `l` may take, as its note says.
    pub fn bound(&self, l: usize) -> u32
        requires { l < length self.now.headers }
        ensures { slice_get self.now.bounds l ≡ Some result }
    {
        self.parts.bounds[l]
    }

    /// By loop, how many back edges one entry of it may take.
    pub fn bounds(&self) -> &[u32]
        ensures { result.now ≡ self.now.bounds }
    {
        &self.parts.bounds
    }

    /// Whether the back edges of loop `l` are counted, as its note says.
    pub fn counted(&self, l: usize) -> bool
        requires { l < length self.now.headers }
        ensures { slice_get self.now.counted l ≡ Some result }
    {
        self.parts.counted[l]
    }

    /// How many back edges an entry of loop `l` takes at least before the loop is left: what its note says of that, where each
    /// node of its extent is in its body, and else 0. At most its bound.
    pub fn least_trips(&self, l: usize) -> u32
        requires { l < length self.now.headers }
        ensures trips { slice_get self.now.least_trips l ≡ Some result }
        ensures within { result ≤ slice_index self.now.bounds l }
    {
        self.parts.least_trips[l]
    }

    /// The numbers of the nodes in the body of loop `l`, ascending.
    pub fn body(&self, l: usize) -> &[usize]
        requires { l < length self.now.headers }
        ensures { result.now ≡ body_of self.now.bodies l }
    {
        &self.parts.bodies[l]
    }

    /// Whether node `k` is in the body of loop `l`.
    pub fn in_body(&self, l: usize, k: usize) -> bool
        requires { l < length self.now.headers }
        ensures { result ≡ is_among k (body_of self.now.bodies l) }
    {
        has_number(&self.parts.bodies[l], k)
    }

    /// The loop of which edge `e` is a back edge. None exactly for a plain edge. An edge is a back edge of one loop at most,
    /// since no two loops have one header.
    pub fn back_loop(&self, e: usize) -> Option<usize>
        requires { e < length self.now.backs }
        ensures { slice_get self.now.backs e ≡ Some result }
    {
        self.parts.backs[e]
    }

    /// By edge, the loop of which it is a back edge.
    pub fn backs(&self) -> &[Option<usize>]
        ensures { result.now ≡ self.now.backs }
    {
        &self.parts.backs
    }

    /// Whether edge `e` is a back edge of loop `l`.
    pub fn is_back_edge(&self, l: usize, e: usize) -> bool
        requires { e < length self.now.backs }
        ensures { (result ≡ true) ↔ (slice_get self.now.backs e ≡ Some (Some l)) }
    {
        self.parts.backs[e] == Some(l)
    }

    /// The loop with the least body of those round node `k`. None exactly where no loop is round it.
    pub fn innermost(&self, k: usize) -> Option<usize>
        requires { k < length self.now.innermost }
        ensures { slice_get self.now.innermost k ≡ Some result }
    {
        self.parts.innermost[k]
    }

    /// The loop with the least body of those round the header of loop `l`, `l` left out. None exactly where there is none.
    pub fn parent(&self, l: usize) -> Option<usize>
        requires { l < length self.now.headers }
        ensures { slice_get self.now.parent l ≡ Some result }
    {
        self.parts.parent[l]
    }

    /// The numbers of the nodes, each before those to which its plain edges lead.
    pub fn plain_order(&self) -> &[usize]
        ensures { result.now ≡ self.now.order }
    {
        &self.parts.order
    }
}
