//! By node, in which extents it lies.

ghost use Rattle.std.specs.Prelude.{◌≡◌, ℕ, ◌<◌, ◌≤◌, ◌↔◌, ◌⊎◌, true, length, slice_index, IfOk};
ghost use Rattle.graph_algorithms.specs.Groups.{HasBit, IsFlagged, OfLoop, IsSpan, IsChange, IsChangeOf, AreInside};

use crate::bodies::bits::set_bit;
use crate::bodies::extent::{LoopExtent, NodeRange, is_in_extent};
use scale_base::NoMemory;
use std::alloc::Global;

// Whether one of a node and the node before it lies in an extent, and not the other.
fn is_change(extent: &[NodeRange], node: usize) -> bool
    ensures { (result ≡ true) ↔ IsChange extent.now node }
{
    let before = node > 0 && is_in_extent(extent, node - 1);
    is_in_extent(extent, node) != before
}

// Sets a bit at a node where an extent begins or ends.
fn mark_change(changes: &mut [u64], extent: &[NodeRange], node: usize, bit: usize)
    requires { bit < 64 }
    ensures size { length changes.new ≡ length changes.old }
    ensures bits { (v i : ℕ) → IsFlagged changes.new v i ↔ (IsFlagged changes.old v i ⊎
        ((v ≡ node) × (i ≡ bit) × (v < length changes.old) × IsChange extent.now v)) }
{
    if node < changes.len() && is_change(extent, node) {
        set_bit(changes, node, bit);
    }
}

// Sets a bit at each node where an extent begins or ends. This is so at ends of its ranges alone.
fn mark_changes(changes: &mut [u64], extent: &[NodeRange], bit: usize)
    requires { bit < 64 }
    ensures size { length changes.new ≡ length changes.old }
    ensures bits { (v i : ℕ) → IsFlagged changes.new v i ↔ (IsFlagged changes.old v i ⊎
        ((i ≡ bit) × (v < length changes.old) × IsChange extent.now v)) }
{
    for range in extent {
        mark_change(changes, extent, range.from, bit);
        mark_change(changes, extent, range.to, bit);
    }
}

// By node, the loops of which the extent begins or ends there.
fn mark_loops(changes: &mut [u64], loops: &[LoopExtent])
    requires few { length loops.now ≤ 64 }
    requires none { (v i : ℕ) → IsFlagged changes.old v i → ⊥ }
    ensures size { length changes.new ≡ length changes.old }
    ensures bits { (v i : ℕ) → IsFlagged changes.new v i ↔ ((v < length changes.old) × OfLoop loops.now i (IsChangeOf v)) }
{
    for (bit, one) in loops.iter().enumerate() {
        mark_changes(changes, &one.ranges, bit);
    }
}

// A range without node 0, and with the node behind it, at which an extent may end, if that is below a count.
fn with_end(nodes: NodeRange, count: usize) -> NodeRange
    ensures first { 1 ≤ result.from }
    ensures front { (v : ℕ) → 1 ≤ v → v < result.from → v < nodes.from }
    ensures within { result.to ≤ count }
    ensures behind { (v : ℕ) → result.to ≤ v → v < count → nodes.to < v }
{
    NodeRange {
        from: nodes.from.max(1),
        to: if nodes.to < count {
            nodes.to + 1
        } else {
            count
        },
    }
}

/// By node, the loops in whose extents it lies. The extents lie in a range of nodes, which alone is gone through.
pub fn find_inside(
    alloc: Global,
    loops: &[LoopExtent],
    nodes: NodeRange,
    count: usize,
) -> Result<Vec<u64>, NoMemory>
    requires few { length loops.now ≤ 64 }
    requires span { IsSpan count loops.now nodes }
    ensures { IfOk result (λ inside. AreInside loops.now count inside.items) }
{
    let mut inside: Vec<u64> = vec![in alloc; 0; count]?;
    mark_loops(&mut inside, loops);
    let changes = with_end(nodes, count);
    for node in changes.from..changes.to {
        inside[node] ^= inside[node - 1];
    }
    Ok(inside)
}
