//! The nodes of each function.

ghost use Rattle.std.specs.Prelude.{◌≡◌, ℕ, ◌<◌, ◌≤◌, length, IfOk};
ghost use Rattle.std.specs.List.Sorted.{IsNonDecreasingBy};
ghost use Rattle.graph_algorithms.specs.Arcs.{number_in_place};
ghost use Rattle.flow_graph.specs.FlowGraph.{IsFlowGraph};
ghost use Rattle.least_cycles.specs.Functions.{IsBucket, ArePlacesIn};
ghost use Rattle.least_cycles.specs.Tables.{AreOwnerKeys, AreNodeChains, AreBackKeys, AreBackChains};

use crate::order::ranked;
use crate::plan::Plan;
use flow_graph::CodeGraph;
use graph_algorithms::{Chains, find_chains};
use scale_base::NoMemory;
use std::alloc::Global;

/// By node, its function.
fn owners_of(alloc: Global, graph: &CodeGraph) -> Result<Vec<Option<usize>>, NoMemory>
    ensures { IfOk result (λ keys. AreOwnerKeys graph.now (length graph.now.code.nodes) keys.items) }
{
    let mut keys = Vec::new(alloc);
    for k in 0..graph.node_count() {
        keys.push(Some(graph.owner(k)))?;
    }
    Ok(keys)
}

/// The chains of the nodes by their functions.
pub fn node_chains(alloc: Global, graph: &CodeGraph) -> Result<Chains, NoMemory>
    requires flow { IsFlowGraph graph.now }
    ensures { IfOk result (λ chains. AreNodeChains graph.now chains) }
{
    let keys = owners_of(alloc, graph)?;
    let chains = find_chains(alloc, &keys, graph.function_count())?;
    Ok(chains)
}

/// The nodes of function `f`.
fn nodes_of(
    alloc: Global,
    graph: &CodeGraph,
    chains: &Chains,
    f: usize,
) -> Result<Vec<usize>, NoMemory>
    requires chains { AreNodeChains graph.now chains.now }
    requires function { f < length graph.now.code.functions }
    ensures bucket { IfOk result (λ bucket. IsBucket graph.now f bucket.items) }
    ensures few { IfOk result (λ bucket. length bucket.items ≤ length graph.now.code.nodes) }
{
    let mut bucket = Vec::new(alloc);
    let mut next = chains.last(f);
    while let Some(k) = next {
        bucket.push(k)?;
        next = chains.before(k);
    }
    Ok(bucket)
}

/// The nodes of function `f` by their ranks, and the place of each among them.
pub fn bucket_of(
    alloc: Global,
    graph: &CodeGraph,
    plan: &Plan,
    f: usize,
    places: &mut Vec<usize>,
) -> Result<Vec<usize>, NoMemory>
    requires chains { AreNodeChains graph.now plan.now.nodes }
    requires function { f < length graph.now.code.functions }
    requires size { length places.old.items ≡ length graph.now.code.nodes }
    ensures bucket { IfOk result (λ bucket. IsBucket graph.now f bucket.items) }
    ensures few { IfOk result (λ bucket. length bucket.items ≤ length graph.now.code.nodes) }
    ensures order { IfOk result (λ bucket. IsNonDecreasingBy (number_in_place plan.now.ranks.items) bucket.items) }
    ensures places { IfOk result (λ bucket. ArePlacesIn bucket.items places.new.items) }
    ensures size { length places.new.items ≡ length places.old.items }
{
    let nodes = nodes_of(alloc, graph, &plan.nodes, f)?;
    let bucket = ranked(alloc, &nodes, &plan.ranks, places)?;
    Ok(bucket)
}
