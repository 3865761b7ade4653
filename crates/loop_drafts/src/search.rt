//! The loops of a graph: strongly connected parts, each with one node at which it is entered, and within them the same without the edges into that node
//! (nested loops in Aho, Lam, Sethi and Ullman, Compilers, section 9.6). Time is linear in the graph for each level of nesting.

mod entries;
mod gaps;
mod levels;
mod parts;
mod spans;

use crate::found::FoundLoops;
use flow_graph::CodeGraph;
use levels::Levels;
use scale_base::NoMemory;
use std::alloc::Global;

/// Loops that are nested deeper are refused, so that no loops are looked for within those of the level behind it.
const MOST_DEPTH: usize = 16;

/// The loops of a graph, by the nodes of its functions: each edge of a call leads to the node behind the call. Loops within loops that are nested more than 16 deep
/// are left out.
pub fn find_loops(alloc: Global, graph: &CodeGraph) -> Result<FoundLoops, NoMemory> {
    let mut levels = Levels::new(alloc, graph)?;
    for depth in 1..MOST_DEPTH + 2 {
        if !levels.add_level(alloc, depth)? {
            break;
        }
    }
    levels.into_found()
}
