//! The order in which nodes are taken: from the last place of the plain order to the first. So each node comes after those to which
//! its plain edges lead, wherever these lie, and plain edges are done in one pass.

ghost use Rattle.std.specs.Prelude.{◌≡◌, ℕ, ◌<◌, Bool, length, IfOk};
ghost use Rattle.std.specs.List.Sorted.{IsPermutation, IsNonDecreasingBy};
ghost use Rattle.graph_algorithms.specs.Arcs.{number_in_place, AreDistinct};
ghost use Rattle.loop_forest.specs.Tree.{IsLoopTree};
ghost use Rattle.least_cycles.specs.Functions.{ArePlacesIn, AreRanksIn};

use flow_graph::CodeGraph;
use loop_forest::LoopTree;
use scale_base::NoMemory;
use std::alloc::Global;

/// By node, its place in the plain order, counted from the last.
pub fn ranks_of(alloc: Global, graph: &CodeGraph, tree: &LoopTree) -> Result<Vec<usize>, NoMemory>
    requires tree { (extent : ℕ → ℕ → Bool) × IsLoopTree graph.now extent tree.now }
    ensures { IfOk result (λ ranks. AreRanksIn tree.now.order ranks.items) }
{
    let order = tree.plain_order();
    let mut ranks = vec![in alloc; 0; graph.node_count()]?;
    for i in 0..order.len() {
        ranks[order[i]] = order.len() - 1 - i;
    }
    Ok(ranks)
}

/// Some nodes by their ranks.
fn sorted(alloc: Global, nodes: &[usize], ranks: &[usize]) -> Result<Vec<usize>, NoMemory>
    ensures nodes { IfOk result (λ sorted. IsPermutation nodes.now sorted.items) }
    ensures order { IfOk result (λ sorted. IsNonDecreasingBy (number_in_place ranks.now) sorted.items) }
{
    let mut sorted = nodes.to_vec(alloc)?;
    sorted.sort_by_key(|k| match ranks.get(*k) {
        Some(rank) => *rank,
        None => 0,
    })?;
    Ok(sorted)
}

/// Some nodes by their ranks, and the place of each among them.
pub fn ranked(
    alloc: Global,
    nodes: &[usize],
    ranks: &[usize],
    places: &mut Vec<usize>,
) -> Result<Vec<usize>, NoMemory>
    requires within { (i : ℕ) → i < length nodes.now → number_in_place nodes.now i < length places.old.items }
    requires once { AreDistinct nodes.now }
    ensures nodes { IfOk result (λ ranked. IsPermutation nodes.now ranked.items) }
    ensures order { IfOk result (λ ranked. IsNonDecreasingBy (number_in_place ranks.now) ranked.items) }
    ensures places { IfOk result (λ ranked. ArePlacesIn ranked.items places.new.items) }
    ensures size { length places.new.items ≡ length places.old.items }
{
    let ranked = sorted(alloc, nodes, ranks)?;
    for i in 0..ranked.len() {
        places[ranked[i]] = i;
    }
    Ok(ranked)
}
