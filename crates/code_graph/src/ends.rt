//! The ends of edges, by the numbers of nodes.

ghost use Rattle.std.specs.Prelude.{◌≡◌, ◌↔◌, ◌<◌, ℕ, Some, None, length, slice_get, IfOk};
ghost use Rattle.cost_theory.specs.Reached as reached;
ghost use Rattle.scale_base.specs.declared.edges.Edge.{Edge};
ghost use Rattle.code_text.specs.Walk.{RiseStrictly};
ghost use Rattle.code_graph.specs.Assembling.{AreEnds};

use flow_graph::{EdgeEnds, number_of};
use scale_base::{Edge, EdgeKind, NoMemory};
use std::alloc::Global;

/// The address to which an edge leads.
fn place_after(edge: Edge) -> Option<u32>
    ensures { result ≡ reached.edge_to (Some edge) }
{
    match edge.kind {
        EdgeKind::End => None,
        _ => Some(edge.to),
    }
}

/// The number of the node at which an edge starts.
fn source_of(nodes: &[u32], edge: Edge) -> usize
    requires rising { RiseStrictly nodes.now }
    requires node { (k : ℕ) × (slice_get nodes.now k ≡ Some edge.at) }
    ensures { slice_get nodes.now result ≡ Some edge.at }
{
    number_of(nodes, edge.at).unwrap()
}

/// The number of the node to which an edge leads.
fn target_of(nodes: &[u32], edge: Edge) -> Option<usize>
    requires rising { RiseStrictly nodes.now }
    requires node { (a : ℕ) → reached.edge_to (Some edge) ≡ Some a → (k : ℕ) × (slice_get nodes.now k ≡ Some a) }
    ensures some { (k : ℕ) → result ≡ Some k → reached.edge_to (Some edge) ≡ slice_get nodes.now k }
    ensures within { (k : ℕ) → result ≡ Some k → k < length nodes.now }
    ensures none { result ≡ None → reached.edge_to (Some edge) ≡ None }
{
    match place_after(edge) {
        Some(at) => number_of(nodes, at),
        None => None,
    }
}

/// The ends of edges that start at nodes and lead to nodes.
pub fn ends_of(alloc: Global, nodes: &[u32], edges: &[Edge]) -> Result<EdgeEnds, NoMemory>
    requires rising { RiseStrictly nodes.now }
    requires sources { (e : ℕ) (edge : Edge) → slice_get edges.now e ≡ Some edge → (k : ℕ) × (slice_get nodes.now k ≡ Some edge.at) }
    requires targets { (e a : ℕ) → reached.edge_to (slice_get edges.now e) ≡ Some a → (k : ℕ) × (slice_get nodes.now k ≡ Some a) }
    ensures { IfOk result (λ ends. AreEnds (length edges.now) nodes.now edges.now ends.sources.items ends.targets.items) }
{
    let mut sources = Vec::new(alloc);
    let mut targets = Vec::new(alloc);
    for edge in edges {
        sources.push(source_of(nodes, *edge))?;
        targets.push(target_of(nodes, *edge))?;
    }
    Ok(EdgeEnds { sources, targets })
}
