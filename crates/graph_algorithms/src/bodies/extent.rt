//! The extent of a loop, as ranges of nodes.

ghost use Rattle.std.specs.Prelude.{◌≡◌};
ghost use Rattle.graph_algorithms.specs.Bodies.{in_node_ranges};

/// The nodes from `from` up to `to`, which is left out.
#[derive(Clone, Copy, Debug, PartialEq, Eq)]
pub struct NodeRange {
    pub from: usize,
    pub to: usize,
}

/// A loop by the node of its header and the ranges of its extent.
#[derive(Drop)]
pub struct LoopExtent {
    pub header: usize,
    pub ranges: Vec<NodeRange>,
}

/// Whether a node lies in one of the ranges.
pub fn is_in_extent(extent: &[NodeRange], node: usize) -> bool
    ensures { result ≡ in_node_ranges extent.now node }
{
    extent
        .iter()
        .any(|range| range.from <= node && node < range.to)
}
