//! What the edges of an original cost with the stubs of an image of other make.

ghost use Rattle.std.specs.Prelude.{◌≡◌, ◌*◌, ◌+◌, ◌<◌, ◌≤◌, ℕ, length, slice_index, IfOk, sum_by};
ghost use Rattle.power_model.specs.Price.{cycles_of};
ghost use Rattle.loop_forest.specs.Tree.{LoopView};
ghost use Rattle.image_check.specs.Known.{HasFound};
ghost use Rattle.image_check.specs.Weights.{foreign_cost, mark_of, stub_jumps, IsExtraAt, AreExtraWeights, AreStoredWeights};

use flow_graph::{CodeGraph, Weights};
use foreign_scan::{ForeignFragment, ForeignSites};
use power_model::Costs;
use scale_base::{EdgeKind, Mark, NoMemory};
use scale_sites::{mark_cost, small_costs};
use std::alloc::Global;

/// The mark for whose code a fragment stands.
pub fn mark_of(fragment: &ForeignFragment) -> Mark
    ensures { result ≡ mark_of fragment.now }
{
    match *fragment {
        ForeignFragment::Switch { .. } => Mark::Switch,
        ForeignFragment::Exit { counter, .. } => Mark::Exit(counter),
        ForeignFragment::Reset { counter } => Mark::Reset(counter),
        ForeignFragment::Count { counter } => Mark::Count(counter),
    }
}

/// The cycles of a fragment.
fn fragment_cycles(fragment: &ForeignFragment, costs: &Costs) -> u32
    ensures cost { result ≡ foreign_cost (cycles_of costs.now) fragment.now }
    ensures small { result ≤ 16 * 65535 }
{
    mark_cost(&mark_of(fragment), costs)
}

/// The cycles of the fragments of an edge.
pub fn fragments_cycles(fragments: &[ForeignFragment], costs: &Costs) -> u32
    requires few { length fragments.now ≤ 64 }
    ensures cost { result ≡ sum_by (foreign_cost (cycles_of costs.now)) fragments.now }
    ensures small { result ≤ 64 * (16 * 65535) }
{
    let mut total = 0;
    for fragment in fragments {
        total += fragment_cycles(fragment, costs);
    }
    total
}

/// The jumps of the stub over an edge of a patched instruction: to the stub of a branch and back, or back from the stub of a jump.
fn stub_jumps(kind: EdgeKind) -> u32
    ensures jumps { result ≡ stub_jumps kind }
    ensures few { result ≤ 2 }
{
    match kind {
        EdgeKind::Taken | EdgeKind::Untaken => 2,
        EdgeKind::Jump | EdgeKind::Next | EdgeKind::CallNext | EdgeKind::End => 1,
    }
}

/// The cycles that edge `e` takes more with the stubs: none where its node's word is the original's.
fn extra_cycles(graph: &CodeGraph, sites: &ForeignSites, costs: &Costs, e: usize) -> u32
    requires found { (tree : LoopView) × HasFound graph.now tree sites.now }
    requires edge { e < length graph.now.code.edges }
    ensures extra { IsExtraAt costs.now graph.now sites.now e result }
    ensures small { result ≤ 2 * 65535 + 64 * (16 * 65535) }
{
    if !sites.patched(graph.source(e)) {
        return 0;
    }
    let jumps = stub_jumps(graph.edge(e).kind);
    jumps * u32::from(costs.jump) + fragments_cycles(sites.fragments(e), costs)
}

/// By edge, the cycles that it takes more with the stubs.
pub fn extra_weights(
    alloc: Global,
    graph: &CodeGraph,
    sites: &ForeignSites,
    costs: &Costs,
) -> Result<Weights, NoMemory>
    requires { (tree : LoopView) × HasFound graph.now tree sites.now }
    ensures weights { IfOk result (AreExtraWeights costs.now graph.now sites.now) }
    ensures size { IfOk result (λ w. length w ≡ length graph.now.code.edges) }
{
    let mut weights = Vec::with_capacity(alloc, graph.edge_count())?;
    for e in 0..graph.edge_count() {
        weights.push(extra_cycles(graph, sites, costs, e))?;
    }
    Ok(Weights::from_vec(weights))
}

/// By edge, the cycles of its step and those that it takes more with the stubs.
pub fn stored_weights(
    alloc: Global,
    graph: &CodeGraph,
    sites: &ForeignSites,
    costs: &Costs,
) -> Result<Weights, NoMemory>
    requires { (tree : LoopView) × HasFound graph.now tree sites.now }
    ensures weights { IfOk result (AreStoredWeights costs.now graph.now sites.now) }
    ensures size { IfOk result (λ w. length w ≡ length graph.now.code.edges) }
    ensures small { IfOk result (λ w. (e : ℕ) → e < length graph.now.code.edges → slice_index w e ≤ 4294967295) }
{
    small_costs(costs);
    let base = graph.base_weights(alloc, costs)?;
    let mut weights = Vec::with_capacity(alloc, graph.edge_count())?;
    for e in 0..graph.edge_count() {
        weights.push(*base.get(e) + extra_cycles(graph, sites, costs, e))?;
    }
    Ok(Weights::from_vec(weights))
}
