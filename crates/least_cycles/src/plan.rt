//! What is known of a graph and its loops before the passes.

ghost use Rattle.std.specs.Prelude.{◌≡◌, ℕ, Bool, ◌<◌, length, IfOk};
ghost use Rattle.graph_algorithms.specs.Arcs.{number_in_place};
ghost use Rattle.flow_graph.specs.FlowGraph.{graph as graph_seen, IsFlowGraph};
ghost use Rattle.loop_forest.specs.Noted.{node_address};
ghost use Rattle.graph_algorithms.specs.Keys.{option_at};
ghost use Rattle.loop_forest.specs.Tree.{IsLoopTree};
ghost use Rattle.least_cycles.specs.Found.{AreOwn};
ghost use Rattle.least_cycles.specs.Tables.{AreReturns, AreLeading};
ghost use Rattle.least_cycles.specs.Charging.{AreHeaderLoops, header_key, AreHeaderKeys, AreHeaderChains, IsChargePlan};

use crate::buckets::node_chains;
use crate::order::ranks_of;
use flow_graph::{CodeGraph, Weights};
use graph_algorithms::{Chains, find_chains};
use loop_forest::LoopTree;
use scale_base::NoMemory;
use std::alloc::Global;

#[derive(Drop)]
pub struct Plan {
    /// By edge, its weight.
    pub own: Vec<u64>,
    /// The chains of the nodes by their functions.
    pub nodes: Chains,
    /// By node, its place in the plain order, counted from the last.
    pub ranks: Vec<usize>,
    /// By edge, whether it is a return, and whether it leads to a node.
    pub returning: Vec<bool>,
    pub leading: Vec<bool>,
    /// By node, the loop whose header it is.
    pub heads: Vec<Option<usize>>,
    /// The chains of the places of headers in the plain order, by functions.
    pub headers: Chains,
}

/// The weights as costs.
fn own_costs(alloc: Global, graph: &CodeGraph, weights: &Weights) -> Result<Vec<u64>, NoMemory>
    requires { length weights.now ≡ length graph.now.code.edges }
    ensures { IfOk result (λ own. AreOwn (length graph.now.code.edges) weights.now own.items) }
{
    let mut own = Vec::new(alloc);
    for e in 0..graph.edge_count() {
        own.push(u64::from(*weights.get(e)))?;
    }
    Ok(own)
}

/// Flags of the edges that are returns.
fn returns_of(alloc: Global, graph: &CodeGraph) -> Result<Vec<bool>, NoMemory>
    ensures { IfOk result (λ flags. AreReturns graph.now (length graph.now.code.edges) flags.items) }
{
    let mut flags = Vec::new(alloc);
    for e in 0..graph.edge_count() {
        flags.push(graph.is_return(e))?;
    }
    Ok(flags)
}

/// Flags of the edges that lead to a node.
fn leading_of(alloc: Global, graph: &CodeGraph) -> Result<Vec<bool>, NoMemory>
    ensures { IfOk result (λ flags. AreLeading graph.now (length graph.now.code.edges) flags.items) }
{
    let mut flags = Vec::new(alloc);
    for e in 0..graph.edge_count() {
        flags.push(graph.target(e).is_some())?;
    }
    Ok(flags)
}

/// By node, the loop whose header it is.
fn heads_of(alloc: Global, tree: &LoopTree, count: usize) -> Result<Vec<Option<usize>>, NoMemory>
    requires { (l : ℕ) → l < length tree.now.headers → number_in_place tree.now.headers l < count }
    ensures size { IfOk result (λ heads. length heads.items ≡ count) }
    ensures heads { IfOk result (λ heads. AreHeaderLoops tree.now heads.items) }
{
    let mut heads = vec![in alloc; None; count]?;
    for l in 0..tree.loop_count() {
        heads[tree.header(l)] = Some(l);
    }
    Ok(heads)
}

/// The function of node `k`, where it is a header.
fn header_key(graph: &CodeGraph, heads: &[Option<usize>], k: usize) -> Option<usize>
    requires node { k < length graph.now.code.nodes }
    requires size { length heads.now ≡ length graph.now.code.nodes }
    ensures { result ≡ header_key (option_at heads.now k) ((graph_seen graph.now).owner (node_address graph.now k)) }
{
    match heads[k] {
        Some(_) => Some(graph.owner(k)),
        None => None,
    }
}

/// By place in the plain order, the function of the node there, where it is a header.
fn header_keys(
    alloc: Global,
    graph: &CodeGraph,
    tree: &LoopTree,
    heads: &[Option<usize>],
) -> Result<Vec<Option<usize>>, NoMemory>
    requires tree { (extent : ℕ → ℕ → Bool) × IsLoopTree graph.now extent tree.now }
    requires size { length heads.now ≡ length graph.now.code.nodes }
    ensures { IfOk result (λ keys. AreHeaderKeys graph.now tree.now.order heads.now (length tree.now.order) keys.items) }
{
    let order = tree.plain_order();
    let mut keys = Vec::new(alloc);
    for i in 0..order.len() {
        keys.push(header_key(graph, heads, order[i]))?;
    }
    Ok(keys)
}

/// The chains of the places of headers in the plain order, by functions.
fn header_chains(
    alloc: Global,
    graph: &CodeGraph,
    tree: &LoopTree,
    heads: &[Option<usize>],
) -> Result<Chains, NoMemory>
    requires flow { IsFlowGraph graph.now }
    requires tree { (extent : ℕ → ℕ → Bool) × IsLoopTree graph.now extent tree.now }
    requires size { length heads.now ≡ length graph.now.code.nodes }
    ensures { IfOk result (λ chains. AreHeaderChains graph.now tree.now.order heads.now chains) }
{
    let keys = header_keys(alloc, graph, tree, heads)?;
    let chains = find_chains(alloc, &keys, graph.function_count())?;
    Ok(chains)
}

/// The weights, the nodes and the headers of functions, and flags of the edges.
pub fn make_plan(
    alloc: Global,
    graph: &CodeGraph,
    tree: &LoopTree,
    weights: &Weights,
) -> Result<Plan, NoMemory>
    requires tree { (extent : ℕ → ℕ → Bool) × IsLoopTree graph.now extent tree.now }
    requires weights { length weights.now ≡ length graph.now.code.edges }
    ensures plan { IfOk result (λ plan. IsChargePlan graph.now tree.now plan) }
    ensures own { IfOk result (λ plan. AreOwn (length graph.now.code.edges) weights.now plan.own.items) }
{
    let count = graph.node_count();
    let own = own_costs(alloc, graph, weights)?;
    let nodes = node_chains(alloc, graph)?;
    let ranks = ranks_of(alloc, graph, tree)?;
    let returning = returns_of(alloc, graph)?;
    let leading = leading_of(alloc, graph)?;
    let heads = heads_of(alloc, tree, count)?;
    let headers = header_chains(alloc, graph, tree, &heads)?;
    Ok(Plan {
        own,
        nodes,
        ranks,
        returning,
        leading,
        heads,
        headers,
    })
}
