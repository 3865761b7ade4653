//! What is taken of the original's graph and loops.

use scale_base::Edge;

/// The graph of the original's reached code and its loops, by the numbers of nodes, edges and loops.
#[derive(Clone, Copy)]
pub struct GraphLists<'a> {
    /// The addresses of the nodes, which ascend.
    pub nodes: &'a [u32],
    pub edges: &'a [Edge],
    /// By edge, the node at which it starts.
    pub sources: &'a [usize],
    /// By edge, the loop of which it is a back edge.
    pub backs: &'a [Option<usize>],
    /// By loop, how many back edges one entry may take.
    pub bounds: &'a [u32],
}
