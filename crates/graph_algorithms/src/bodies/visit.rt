//! The search of a body, backwards from the header.

ghost use Rattle.std.specs.Prelude.{◌≡◌, ℕ, ◌<◌, true, length, OnOk, slice_get, Some, [], ◌⊎◌, ◌↔◌};
ghost use Rattle.graph_algorithms.specs.Bodies.{HasEdge, LeadsWithin, in_node_ranges, IsIn};
ghost use Rattle.graph_algorithms.specs.BodySearch.{is_marked_at, IsMarkedBody, BodyGrows, IsSettled, AreUnmarked};

use crate::bodies::edges::IncomingEdges;
use crate::bodies::extent::{NodeRange, is_in_extent};
use scale_base::NoMemory;

// Adds a node to the body, if it lies in the extent and isn't in the body yet.
fn visit(
    extent: &[NodeRange],
    found: &mut [bool],
    body: &mut Vec<usize>,
    node: usize,
) -> Result<(), NoMemory>
    requires within { node < length found.old }
    requires marked { IsMarkedBody found.old body.old.items }
    ensures marked { IsMarkedBody found.new body.new.items }
    ensures grows { OnOk result (BodyGrows found.old body.old.items found.new body.new.items) }
    ensures only { OnOk result ((p v : ℕ) → slice_get body.new.items p ≡ Some v → (slice_get body.old.items p ≡ Some v) ⊎
        ((v ≡ node) × (in_node_ranges extent.now v ≡ true))) }
    ensures found { OnOk result (in_node_ranges extent.now node ≡ true → is_marked_at found.new node ≡ true) }
{
    if !found[node] && is_in_extent(extent, node) {
        body.push(node)?;
        found[node] = true;
    }
    Ok(())
}

// Visits the nodes where the edges to a node start.
fn visit_sources(
    edges: &IncomingEdges<'_>,
    extent: &[NodeRange],
    found: &mut [bool],
    body: &mut Vec<usize>,
    node: usize,
) -> Result<(), NoMemory>
    requires node { node < edges.now.count }
    requires size { length found.old ≡ edges.now.count }
    requires marked { IsMarkedBody found.old body.old.items }
    ensures marked { IsMarkedBody found.new body.new.items }
    ensures grows { OnOk result (BodyGrows found.old body.old.items found.new body.new.items) }
    ensures only { OnOk result ((p v : ℕ) → slice_get body.new.items p ≡ Some v → (slice_get body.old.items p ≡ Some v) ⊎
        (HasEdge edges.now.sources edges.now.targets v node × (in_node_ranges extent.now v ≡ true))) }
    ensures settled { OnOk result (IsSettled edges.now.sources edges.now.targets (in_node_ranges extent.now) found.new node) }
{
    let mut next = edges.last(node);
    while let Some(edge) = next {
        visit(extent, found, body, edges.source(edge))?;
        next = edges.before(edge);
    }
    Ok(())
}

/// Puts the nodes that lead to a header within an extent into a body that has no node yet, and marks them.
pub fn fill_body(
    edges: &IncomingEdges<'_>,
    extent: &[NodeRange],
    found: &mut [bool],
    body: &mut Vec<usize>,
    header: usize,
) -> Result<(), NoMemory>
    requires header { header < edges.now.count }
    requires size { length found.old ≡ edges.now.count }
    requires empty { body.old.items ≡ [] }
    requires marked { IsMarkedBody found.old body.old.items }
    ensures marked { IsMarkedBody found.new body.new.items }
    ensures nodes { OnOk result ((v : ℕ) → IsIn body.new.items v ↔ LeadsWithin edges.now.sources edges.now.targets
        (in_node_ranges extent.now) header v) }
{
    visit_sources(edges, extent, found, body, header)?;
    let mut done = 0;
    while done < body.len() {
        let node = body[done];
        visit_sources(edges, extent, found, body, node)?;
        done += 1;
    }
    Ok(())
}

/// Takes the marks of a body's nodes away.
pub fn clear_marks(found: &mut [bool], body: &[usize])
    requires { IsMarkedBody found.old body.now }
    ensures { AreUnmarked found.new }
{
    for node in body {
        found[*node] = false;
    }
}
