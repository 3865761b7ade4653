//! The nodes among which the extents of some loops lie.

ghost use Rattle.std.specs.Prelude.{◌≡◌, ℕ, ◌<◌, ◌≤◌, true};
ghost use Rattle.graph_algorithms.specs.Bodies.{in_node_ranges};
ghost use Rattle.graph_algorithms.specs.Groups.{IsInSpan, IsSpan};

use crate::bodies::extent::{LoopExtent, NodeRange};

// The least range that has two others.
fn joined(one: NodeRange, other: NodeRange) -> NodeRange
    ensures one { (result.from ≤ one.from) × (one.to ≤ result.to) }
    ensures other { (result.from ≤ other.from) × (other.to ≤ result.to) }
{
    NodeRange {
        from: one.from.min(other.from),
        to: one.to.max(other.to),
    }
}

// The least range that has another and those of an extent.
fn widened(range: NodeRange, extent: &[NodeRange]) -> NodeRange
    ensures range { (result.from ≤ range.from) × (range.to ≤ result.to) }
    ensures extent { (v : ℕ) → in_node_ranges extent.now v ≡ true → IsInSpan result v }
{
    let mut whole = range;
    for part in extent {
        whole = joined(whole, *part);
    }
    whole
}

// The part of a range below a count.
fn capped(range: NodeRange, count: usize) -> NodeRange
    ensures within { result.to ≤ count }
    ensures nodes { (v : ℕ) → v < count → IsInSpan range v → IsInSpan result v }
{
    NodeRange {
        from: range.from,
        to: range.to.min(count),
    }
}

/// The range from the first node of some extents to the last, of the nodes below a count.
pub fn span_of(loops: &[LoopExtent], count: usize) -> NodeRange
    ensures { IsSpan count loops.now result }
{
    let mut whole = NodeRange { from: count, to: 0 };
    for one in loops {
        whole = widened(whole, &one.ranges);
    }
    capped(whole, count)
}
