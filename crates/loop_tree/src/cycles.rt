//! Cycles of plain edges, as refusals name them.

ghost use Rattle.std.specs.Prelude.{ℕ, ◌<◌, List, length, Option, IfOk};
ghost use Rattle.flow_graph.specs.FlowGraph.{IsFlowGraph};
ghost use Rattle.graph_algorithms.specs.Arcs.{number_in_place};
ghost use Rattle.graph_algorithms.specs.Cycles.{IsCycleBy};
ghost use Rattle.loop_forest.specs.Arcs.{AreAddressesOf, IsRoundOfNodes};
ghost use Rattle.loop_tree.specs.Backs.{IsStepBy};

use flow_graph::CodeGraph;
use graph_algorithms::least_first;
use scale_base::{Cycle, NoMemory};
use std::alloc::Global;

/// The addresses of nodes.
fn addresses_of(alloc: Global, graph: &CodeGraph, numbers: &[usize]) -> Result<Vec<u32>, NoMemory>
    requires within { (i : ℕ) → i < length numbers.now → number_in_place numbers.now i < length graph.now.code.nodes }
    ensures { IfOk result (λ addresses. AreAddressesOf graph.now numbers.now addresses.items) }
{
    let mut addresses = Vec::new(alloc);
    for k in numbers {
        addresses.push(graph.node(*k))?;
    }
    Ok(addresses)
}

/// The cycle of nodes, from its least address. Where each has a plain edge to the next and the last to the first, by any
/// list of the loops of which edges are back edges, that is so of the cycle.
pub fn cycle_of(alloc: Global, graph: &CodeGraph, numbers: &[usize]) -> Result<Cycle, NoMemory>
    requires flow { IsFlowGraph graph.now }
    requires some { 0 < length numbers.now }
    requires within { (i : ℕ) → i < length numbers.now → number_in_place numbers.now i < length graph.now.code.nodes }
    ensures { (backs : List (Option ℕ)) → IsRoundOfNodes graph.now backs numbers.now →
        IfOk result (λ cycle. IsCycleBy (IsStepBy graph.now backs) cycle) }
{
    let addresses = addresses_of(alloc, graph, numbers)?;
    let cycle = least_first(addresses);
    Ok(Cycle::from_vec(cycle))
}
