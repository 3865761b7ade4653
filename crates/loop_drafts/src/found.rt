//! The loops that are found in a graph.

use scale_base::Range;

/// A loop that is found: its header, that of the least loop round it, how deep it is nested, from 1 on, and where its body lies.
#[derive(Drop)]
pub struct FoundLoop {
    pub header: u32,
    pub parent: Option<u32>,
    pub depth: usize,
    /// Ascending. Every node of its function in them is a node of the body, or one from which no edge leads into it.
    pub ranges: Vec<Range>,
}

/// A part of the code that turns and is no loop, since it is entered at several places: these, ascending.
#[derive(Drop)]
pub struct AsidePart {
    pub entries: Vec<u32>,
}

/// What turns in a graph: its loops, ascending by their headers, and the parts that are none.
#[derive(Drop)]
pub struct FoundLoops {
    pub loops: Vec<FoundLoop>,
    pub aside: Vec<AsidePart>,
}
