//! What a tree of loops is made of.

/// The parts of a tree of loops: lists by loop, but where another order is told.
#[derive(Drop)]
pub struct LoopParts {
    /// The numbers of their headers among the nodes.
    pub headers: Vec<usize>,
    /// How many back edges one entry may take.
    pub bounds: Vec<u32>,
    /// Whether the back edges are counted.
    pub counted: Vec<bool>,
    /// How many back edges an entry takes at least before the loop is left.
    pub least_trips: Vec<u32>,
    /// The numbers of the nodes in their bodies, each ascending.
    pub bodies: Vec<Vec<usize>>,
    /// By edge, the loop of which it is a back edge.
    pub backs: Vec<Option<usize>>,
    /// By node, the loop with the least body of those round it.
    pub innermost: Vec<Option<usize>>,
    /// The loop with the least body of those round the header, the loop itself left out.
    pub parent: Vec<Option<usize>>,
    /// The numbers of the nodes, each before those to which its plain edges lead.
    pub order: Vec<usize>,
}
