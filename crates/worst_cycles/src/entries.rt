//! The nodes at which functions begin.

ghost use Rattle.std.specs.Prelude.{◌≡◌, ℕ, ◌<◌, length, IfOk};
ghost use Rattle.flow_graph.specs.FlowGraph.{IsFlowGraph};
ghost use Rattle.worst_cycles.specs.Needs.{AreEntries};

use flow_graph::CodeGraph;
use scale_base::NoMemory;
use std::alloc::Global;

/// By function, the number of the node at its entry.
pub fn entry_nodes(alloc: Global, graph: &CodeGraph) -> Result<Vec<usize>, NoMemory>
    requires flow { IsFlowGraph graph.now }
    ensures { IfOk result (λ entries. AreEntries graph.now entries.items) }
{
    let mut entries = Vec::new(alloc);
    for f in 0..graph.function_count() {
        entries.push(graph.entry_node(f))?;
    }
    Ok(entries)
}
