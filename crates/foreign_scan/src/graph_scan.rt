//! A scan with the original's graph and loops.

ghost use Rattle.std.specs.Prelude.{◌≡◌, ℕ, Bool, None, IfOk};
ghost use Rattle.code_text.specs.Text.{text_of};
ghost use Rattle.flow_graph.specs.FlowGraph.{IsGraphOf};
ghost use Rattle.loop_forest.specs.Tree.{loops, IsLoopTree};
ghost use Rattle.foreign_scan.specs.Scans.{IsScanOf};

use crate::list_scan::{Scanned, scan_lists};
use crate::lists::GraphLists;
use elf_image::ImageView;
use flow_graph::CodeGraph;
use loop_forest::LoopTree;
use scale_base::NoMemory;
use std::alloc::Global;

/// Looks at an image beside the original, with the original's graph and loops. Gives the fragments that stand in its stubs, by the edges of the graph; or the
/// first cause why it isn't known to be safe, of those that need no numbers: `NoKey`, `Layout`, `Byte`, `Patch` or `Stub`, the last three at the least address.
/// Takes time that is linear in the sizes of both images, times the halving of nodes at patched words. Err only for want of memory.
pub fn scan(
    alloc: Global,
    original: &ImageView<'_>,
    foreign: &ImageView<'_>,
    graph: &CodeGraph,
    tree: &LoopTree,
) -> Result<Scanned, NoMemory>
    requires key { original.now.keyed_segment ≡ None }
    requires graph { IsGraphOf (text_of original.now) graph.now }
    requires tree { (extent : ℕ → ℕ → Bool) × IsLoopTree graph.now extent tree.now }
    ensures { IfOk result (IsScanOf original.now foreign.now graph.now.code (loops graph.now tree.now)) }
{
    let lists = GraphLists {
        nodes: graph.nodes(),
        edges: graph.edges(),
        sources: graph.sources(),
        backs: tree.backs(),
        bounds: tree.bounds(),
    };
    scan_lists(alloc, original, foreign, &lists)
}
