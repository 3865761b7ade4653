//! Edges into a loop: those that turn it back, and those that enter its body past the header.

ghost use Rattle.std.specs.Prelude.{◌≡◌, ◌≢◌, ℕ, ◌<◌, ◌≤◌, true, false, length, slice_get, Some, ◌↔◌, ◌⊎◌};
ghost use Rattle.graph_algorithms.specs.Bodies.{HasEdge, in_node_ranges, HasEdgeBack, AreNodes, IsSideEdge, IsLeastPair, IsLesserPair};
ghost use Rattle.graph_algorithms.specs.BodySearch.{is_marked_at, AreUnmarked, IsMarkedBody, IsLeastUnmarked};

use crate::bodies::edges::IncomingEdges;
use crate::bodies::extent::{NodeRange, is_in_extent};

/// Whether an edge from a node of an extent leads to the header.
pub fn has_back_edge(edges: &IncomingEdges<'_>, header: usize, extent: &[NodeRange]) -> bool
    requires { header < edges.now.count }
    ensures { (result ≡ true) ↔ HasEdgeBack edges.now.sources edges.now.targets (in_node_ranges extent.now) header }
{
    let mut next = edges.last(header);
    while let Some(edge) = next {
        if is_in_extent(extent, edges.source(edge)) {
            return true;
        }
        next = edges.before(edge);
    }
    false
}

/// Marks the nodes of a body.
pub fn mark_nodes(found: &mut [bool], body: &[usize])
    requires unmarked { AreUnmarked found.old }
    requires nodes { AreNodes (length found.old) body.now }
    ensures { IsMarkedBody found.new body.now }
{
    for node in body {
        found[*node] = true;
    }
}

// The lesser of a node and of one that may be missing.
fn lesser(least: Option<usize>, node: usize) -> usize
    ensures { (result ≤ node) × ((k : ℕ) → least ≡ Some k → result ≤ k) × ((result ≡ node) ⊎ (least ≡ Some result)) }
{
    match least {
        Some(other) if other <= node => other,
        _ => node,
    }
}

// The least unmarked node from which an edge leads to this one.
fn least_unmarked(edges: &IncomingEdges<'_>, found: &[bool], node: usize) -> Option<usize>
    requires node { node < edges.now.count }
    requires size { length found.now ≡ edges.now.count }
    ensures { IsLeastUnmarked edges.now.sources edges.now.targets found.now node result }
{
    let mut least = None;
    let mut next = edges.last(node);
    while let Some(edge) = next {
        let source = edges.source(edge);
        if !found[source] {
            least = Some(lesser(least, source));
        }
        next = edges.before(edge);
    }
    least
}

/// The lesser of a pair and of one that may be missing, by the first numbers and then by the second.
pub fn lesser_pair(least: Option<(usize, usize)>, pair: (usize, usize)) -> (usize, usize)
    ensures { IsLesserPair least pair result }
{
    match least {
        Some(other) if other.0 < pair.0 || other.0 == pair.0 && other.1 <= pair.1 => other,
        _ => pair,
    }
}

/// The least edge from an unmarked node to a node of the body, all of whose nodes are marked, that isn't the header.
pub fn least_side(
    edges: &IncomingEdges<'_>,
    found: &[bool],
    header: usize,
    body: &[usize],
) -> Option<(usize, usize)>
    requires size { length found.now ≡ edges.now.count }
    requires marked { IsMarkedBody found.now body.now }
    ensures { IsLeastPair (IsSideEdge edges.now.sources edges.now.targets header body.now) result }
{
    let mut least = None;
    for node in body {
        if *node != header
            && let Some(from) = least_unmarked(edges, found, *node)
        {
            least = Some(lesser_pair(least, (from, *node)));
        }
    }
    least
}
