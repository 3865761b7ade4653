//! The bodies of a group of loops, as bits.

ghost use Rattle.std.specs.Prelude.{◌≡◌, ℕ, ◌<◌, ◌≤◌, ◌↔◌, ◌⊎◌, length, slice_get, Some, IfOk, IfSome};
ghost use Rattle.graph_algorithms.specs.Bodies.{IsIn, AreNodes};
ghost use Rattle.graph_algorithms.specs.Groups.{HasBit, IsFlagged, OfLoop, IsInSpan, IsSpan, AreLoopExtents, AreBodyBits, IsEnteredFrom, IsSideBit};

use crate::bodies::bits::set_bit;
use crate::bodies::edges::IncomingEdges;
use crate::bodies::extent::{LoopExtent, NodeRange};
use crate::bodies::inside::find_inside;
use crate::bodies::sweep::{settle, start_loops};
use scale_base::NoMemory;
use std::alloc::Global;

/// The bodies of at most 64 loops, of which bit 0 of a word speaks of the first.
#[derive(Drop)]
pub struct GroupBodies {
    /// By node, the loops whose bodies have it.
    pub bodies: Vec<u64>,
    /// A range that has the nodes of the bodies; how much wider it is is free.
    pub nodes: NodeRange,
    /// The loops whose bodies an edge from outside enters past the header.
    pub aside: u64,
}

/// By node, the loops whose bodies have it. Their extents lie in a range of nodes, which alone is gone through. None is where
/// the code is laid out so that this has to be done too often.
pub fn search_together(
    alloc: Global,
    edges: &IncomingEdges<'_>,
    loops: &[LoopExtent],
    nodes: NodeRange,
) -> Result<Option<Vec<u64>>, NoMemory>
    requires loops { AreLoopExtents edges.now.count loops.now }
    requires span { IsSpan edges.now.count loops.now nodes }
    ensures { IfOk result (λ found. IfSome found (λ bodies. AreBodyBits edges.now loops.now bodies.items)) }
{
    let count = edges.count();
    let inside = find_inside(alloc, loops, nodes, count)?;
    let mut found: Vec<u64> = vec![in alloc; 0; count]?;
    let mut pending = vec![in alloc; false; count]?;
    start_loops(edges, loops, &inside, &mut found, &mut pending);
    if settle(edges, &inside, &mut found, &mut pending, nodes) {
        Ok(Some(found))
    } else {
        Ok(None)
    }
}

/// Sets a bit at each node of a body.
pub fn add_body(words: &mut [u64], body: &[usize], bit: usize)
    requires bit { bit < 64 }
    requires nodes { AreNodes (length words.old) body.now }
    ensures size { length words.new ≡ length words.old }
    ensures bits { (v i : ℕ) → IsFlagged words.new v i ↔ (IsFlagged words.old v i ⊎ (IsIn body.now v × (i ≡ bit))) }
{
    for node in body {
        set_bit(words, *node, bit);
    }
}

/// By node, the loops whose header it is.
pub fn find_headers(alloc: Global, loops: &[LoopExtent], count: usize) -> Result<Vec<u64>, NoMemory>
    requires { AreLoopExtents count loops.now }
    ensures size { IfOk result (λ headers. length headers.items ≡ count) }
    ensures bits { IfOk result (λ headers. (v i : ℕ) → IsFlagged headers.items v i ↔ OfLoop loops.now i (λ loop. v ≡ loop.header)) }
{
    let mut headers: Vec<u64> = vec![in alloc; 0; count]?;
    for (bit, one) in loops.iter().enumerate() {
        set_bit(&mut headers, one.header, bit);
    }
    Ok(headers)
}

// Those of some bits that an edge to a node brings from a node without them.
fn entered_bits(edges: &IncomingEdges<'_>, bodies: &[u64], node: usize, bits: u64) -> u64
    requires node { node < edges.now.count }
    requires bodies { length bodies.now ≡ edges.now.count }
    ensures { (i : ℕ) → HasBit result i ↔ (HasBit bits i × IsEnteredFrom edges.now bodies.now node i) }
{
    let mut entered = 0;
    let mut next = edges.last(node);
    while let Some(edge) = next {
        entered |= bits & !bodies[edges.source(edge)];
        next = edges.before(edge);
    }
    entered
}

/// The loops whose bodies an edge from outside enters past the header. The bodies' nodes lie in a range.
pub fn find_aside(
    edges: &IncomingEdges<'_>,
    bodies: &[u64],
    headers: &[u64],
    nodes: NodeRange,
) -> u64
    requires bodies { length bodies.now ≡ edges.now.count }
    requires headers { length headers.now ≡ edges.now.count }
    requires within { nodes.to ≤ edges.now.count }
    requires nodes { (v i : ℕ) → IsFlagged bodies.now v i → IsInSpan nodes v }
    ensures { (i : ℕ) → HasBit result i ↔ IsSideBit edges.now bodies.now headers.now i }
{
    let mut aside = 0;
    for node in nodes.from..nodes.to {
        aside |= entered_bits(edges, bodies, node, bodies[node] & !headers[node]);
    }
    aside
}
