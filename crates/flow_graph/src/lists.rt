//! The lists of which a graph is made.

use crate::ends::EdgeEnds;
use cost_theory::Flow;
use scale_base::{Class, Edge, Range};

/// The lists of a graph. Nodes are numbered by their addresses, edges by the nodes where they start.
#[derive(Drop)]
pub struct GraphLists {
    /// The addresses of the nodes.
    pub nodes: Vec<u32>,
    /// By node what its word says of the way on.
    pub kinds: Vec<Flow>,
    /// By node the number of its function.
    pub owners: Vec<usize>,
    /// By node the number of the function that is called.
    pub callees: Vec<Option<usize>>,
    /// By node the number of its first edge, and at last how many edges there are.
    pub firsts: Vec<usize>,
    pub edges: Vec<Edge>,
    /// By edge the numbers of the nodes where it starts and to which it leads.
    pub ends: EdgeEnds,
    /// By edge the class of its step.
    pub classes: Vec<Option<Class>>,
    /// The entries of the functions.
    pub functions: Vec<u32>,
    /// By function whether it returns.
    pub returning: Vec<bool>,
    /// The numbers of the functions, callees first.
    pub order: Vec<usize>,
    pub blocks: Vec<Range>,
}
