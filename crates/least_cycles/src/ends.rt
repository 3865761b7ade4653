//! The least costs behind the calls of each function, and to an end of the run.

ghost use Rattle.std.specs.Prelude.{◌≡◌, ℕ, ◌+◌, ◌*◌, ◌^◌, ◌<◌, ◌≤◌, length, Some, None, IfOk};
ghost use Rattle.cost_theory.specs.Least.{IsLeastIfAny, end_after};
ghost use Rattle.flow_graph.specs.FlowGraph.{graph as graph_seen, IsFlowGraph};
ghost use Rattle.loop_forest.specs.Noted.{node_address};
ghost use Rattle.least_cycles.specs.Hops.{number_in_table};
ghost use Rattle.least_cycles.specs.Local.{lesser_cost, sum_of_both};
ghost use Rattle.least_cycles.specs.Tables.{AreBackKeys, AreBackChains, back_from, least_by};
ghost use Rattle.least_cycles.specs.Ends.{IsBackTo, AreSmallWalks, AreBehindFrom, AreBehind, end_place};

use crate::walks::Walks;
use flow_graph::CodeGraph;
use graph_algorithms::{Chains, find_chains};
use scale_base::NoMemory;
use std::alloc::Global;

/// The function that edge `e` calls, if the call comes back over it.
fn comes_back(graph: &CodeGraph, e: usize) -> Option<usize>
    requires edge { e < length graph.now.code.edges }
    ensures { result ≡ back_from ((graph_seen graph.now).target e) ((graph_seen graph.now).callee e) }
{
    match graph.target(e) {
        Some(_) => graph.callee(e),
        None => None,
    }
}

/// By edge, the function whose calls come back over it.
fn back_keys(alloc: Global, graph: &CodeGraph) -> Result<Vec<Option<usize>>, NoMemory>
    ensures { IfOk result (λ keys. AreBackKeys graph.now (length graph.now.code.edges) keys.items) }
{
    let mut keys = Vec::new(alloc);
    for e in 0..graph.edge_count() {
        keys.push(comes_back(graph, e))?;
    }
    Ok(keys)
}

/// The chains of the edges by which calls come back, by the functions that are called.
fn back_chains(alloc: Global, graph: &CodeGraph) -> Result<Chains, NoMemory>
    requires flow { IsFlowGraph graph.now }
    ensures { IfOk result (λ chains. AreBackChains graph.now chains) }
{
    let keys = back_keys(alloc, graph)?;
    let chains = find_chains(alloc, &keys, graph.function_count())?;
    Ok(chains)
}

/// The lesser of two numbers that may be absent.
fn lesser(one: Option<u128>, other: Option<u128>) -> Option<u128>
    ensures { result ≡ lesser_cost one other }
{
    let Some(x) = one else {
        return other;
    };
    let Some(y) = other else {
        return one;
    };
    if x <= y { Some(x) } else { Some(y) }
}

/// The sum of two numbers, absent where one of them is.
fn both(one: Option<u128>, other: Option<u128>) -> Option<u128>
    requires one { (x : ℕ) → one ≡ Some x → x ≤ 2 ^ 67 }
    requires other { (x : ℕ) → other ≡ Some x → x ≤ 2 ^ 84 }
    ensures { result ≡ sum_of_both one other }
{
    let Some(x) = one else {
        return None;
    };
    let Some(y) = other else {
        return None;
    };
    Some(x + y)
}

/// The least cost to an end at node `k`, by what is behind the calls of its function.
pub fn end_at(graph: &CodeGraph, walks: &Walks, behind: &[Option<u128>], k: usize) -> Option<u128>
    requires flow { IsFlowGraph graph.now }
    requires node { k < length graph.now.code.nodes }
    requires walks { AreSmallWalks graph.now walks.now.returns.items walks.now.exits.items }
    requires size { length behind.now ≡ length graph.now.code.functions }
    requires low { (f x : ℕ) → number_in_table behind.now f ≡ Some x → x ≤ 2 ^ 84 }
    ensures { result ≡ (least_by graph.now walks.now.returns.items walks.now.exits.items behind.now).to_end (node_address graph.now k) }
{
    let returns = both(walks.returns[k], behind[graph.owner(k)]);
    lesser(walks.exits[k], returns)
}

/// The least cost to an end at the node to which edge `e` leads.
pub fn end_over(graph: &CodeGraph, walks: &Walks, behind: &[Option<u128>], e: usize) -> Option<u128>
    requires flow { IsFlowGraph graph.now }
    requires edge { e < length graph.now.code.edges }
    requires walks { AreSmallWalks graph.now walks.now.returns.items walks.now.exits.items }
    requires size { length behind.now ≡ length graph.now.code.functions }
    requires low { (f x : ℕ) → number_in_table behind.now f ≡ Some x → x ≤ 2 ^ 84 }
    ensures { result ≡ end_place (least_by graph.now walks.now.returns.items walks.now.exits.items behind.now)
        ((graph_seen graph.now).target e) }
{
    match graph.target(e) {
        Some(k) => end_at(graph, walks, behind, k),
        None => None,
    }
}

/// The least cost to an end behind the calls of function `f`.
fn behind_of(
    graph: &CodeGraph,
    chains: &Chains,
    walks: &Walks,
    behind: &[Option<u128>],
    f: usize,
) -> Option<u128>
    requires flow { IsFlowGraph graph.now }
    requires chains { AreBackChains graph.now chains.now }
    requires walks { AreSmallWalks graph.now walks.now.returns.items walks.now.exits.items }
    requires size { length behind.now ≡ length graph.now.code.functions }
    requires low { (h x : ℕ) → number_in_table behind.now h ≡ Some x → x ≤ 2 ^ 84 }
    requires function { f < length graph.now.code.functions }
    ensures { IsLeastIfAny (IsBackTo (graph_seen graph.now) (least_by graph.now walks.now.returns.items walks.now.exits.items behind.now)
        f) (end_after (graph_seen graph.now) (least_by graph.now walks.now.returns.items walks.now.exits.items behind.now)) result }
{
    let mut least = None;
    let mut next = chains.last(f);
    while let Some(e) = next {
        least = lesser(least, end_over(graph, walks, behind, e));
        next = chains.before(e);
    }
    least
}

/// By function, the least cost to an end behind its calls. Callers are taken before those that they call.
pub fn behinds_of(
    alloc: Global,
    graph: &CodeGraph,
    walks: &Walks,
) -> Result<Vec<Option<u128>>, NoMemory>
    requires flow { IsFlowGraph graph.now }
    requires walks { AreSmallWalks graph.now walks.now.returns.items walks.now.exits.items }
    ensures { IfOk result (λ behind. AreBehind graph.now walks.now.returns.items walks.now.exits.items 0 behind.items) }
{
    let chains = back_chains(alloc, graph)?;
    let order = graph.call_order();
    let mut behind = vec![in alloc; None; graph.function_count()]?;
    let mut i = order.len();
    while i > 0 {
        i -= 1;
        let f = order[i];
        behind[f] = behind_of(graph, &chains, walks, &behind, f);
    }
    Ok(behind)
}
