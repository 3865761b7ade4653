//! What is found at a node from what was found behind its edges.

ghost use Rattle.std.specs.Prelude.{◌≡◌, ℕ, ◌+◌, ◌^◌, ◌<◌, ◌≤◌, length, slice_index, Some, None};
ghost use Rattle.graph_algorithms.specs.Arcs.{number_in_place};
ghost use Rattle.cost_theory.specs.Worst.{Numbers, cost};
ghost use Rattle.flow_graph.specs.FlowGraph.{graph as graph_seen};
ghost use Rattle.worst_cycles.specs.Worst.{by_edge};
ghost use Rattle.worst_cycles.specs.Visits.{visit_at, AreVisits, AreSolvedBy, IsCallKnown, IsEdgeKnown, AreKnownAt, IsBehind, IsPlainCostOver};
ghost use Rattle.worst_cycles.specs.Planned.{IsPlannedGraph};

use crate::planned::PlannedGraph;
use flow_graph::CodeGraph;

/// What the pass finds at a node, in cycles.
#[derive(Clone, Copy, Drop)]
pub struct Visit {
    /// The greatest cost of a plain path from the node.
    pub plain: u64,
    /// All turns of the loop whose header the node is, and 0 at other nodes.
    pub turns: u64,
    /// The greatest cost of one iteration of this loop.
    pub iteration: u64,
}

/// The worst cycles of the function that edge `e` calls, if any.
fn called(planned: &PlannedGraph<'_>, visits: &[Visit], e: usize) -> u64
    requires planned { IsPlannedGraph planned.now }
    requires visits { AreVisits planned.now.graph.now visits.now }
    requires edge { e < length planned.now.graph.now.code.edges }
    ensures some { (f : ℕ) → (graph_seen planned.now.graph.now).callee e ≡ Some f →
        result ≡ (visit_at visits.now (number_in_place planned.now.plan.now.entries.items f)).plain +
        (visit_at visits.now (number_in_place planned.now.plan.now.entries.items f)).turns }
    ensures none { (graph_seen planned.now.graph.now).callee e ≡ None → result ≡ 0 }
    ensures small { result ≤ 2 ^ 49 }
{
    match planned.graph.callee(e) {
        Some(f) => {
            let visit = visits[planned.plan.entries[f]];
            visit.plain + visit.turns
        }
        None => 0,
    }
}

/// The cost of edge `e`: its weight, and the worst cycles of the function that it calls.
pub fn cost_of(planned: &PlannedGraph<'_>, visits: &[Visit], e: usize) -> u64
    requires planned { IsPlannedGraph planned.now }
    requires visits { AreVisits planned.now.graph.now visits.now }
    requires edge { e < length planned.now.graph.now.code.edges }
    ensures cost { (n : Numbers) → IsCallKnown planned.now.graph.now planned.now.plan.now visits.now n e →
        result ≡ cost (graph_seen planned.now.graph.now) n (by_edge planned.now.weights.now) e }
    ensures small { result ≤ 2 ^ 50 }
{
    u64::from(*planned.weights.get(e)) + called(planned, visits, e)
}

/// What a path that enters the node to which edge `e` leads costs from there on: all turns and a plain path.
fn behind(graph: &CodeGraph, visits: &[Visit], e: usize) -> u64
    requires visits { AreVisits graph.now visits.now }
    requires edge { e < length graph.now.code.edges }
    ensures behind { IsBehind graph.now visits.now e result }
    ensures small { result ≤ 2 ^ 49 }
{
    match graph.target(e) {
        Some(k) => {
            let visit = visits[k];
            visit.turns + visit.plain
        }
        None => 0,
    }
}

/// What a plain path costs over edge `e`; 0 over a back edge.
fn over(planned: &PlannedGraph<'_>, visits: &[Visit], e: usize) -> u64
    requires planned { IsPlannedGraph planned.now }
    requires visits { AreVisits planned.now.graph.now visits.now }
    requires edge { e < length planned.now.graph.now.code.edges }
    ensures over { (n : Numbers) → AreSolvedBy planned.now.graph.now planned.now.tree.now (by_edge planned.now.weights.now) n →
        IsEdgeKnown planned.now.graph.now planned.now.tree.now planned.now.plan.now visits.now n e →
        IsPlainCostOver planned.now.graph.now planned.now.tree.now (by_edge planned.now.weights.now) n e result }
    ensures small { result ≤ 2 ^ 51 }
{
    match planned.tree.back_loop(e) {
        Some(_) => 0,
        None => cost_of(planned, visits, e) + behind(planned.graph, visits, e),
    }
}

/// The greatest cost of a plain path from node `k`.
pub fn plain_at_node(planned: &PlannedGraph<'_>, visits: &[Visit], k: usize) -> u64
    requires planned { IsPlannedGraph planned.now }
    requires visits { AreVisits planned.now.graph.now visits.now }
    requires node { k < length planned.now.graph.now.code.nodes }
    ensures { (n : Numbers) → AreSolvedBy planned.now.graph.now planned.now.tree.now (by_edge planned.now.weights.now) n →
        AreKnownAt planned.now.graph.now planned.now.tree.now planned.now.plan.now visits.now n
        (slice_index planned.now.graph.now.code.nodes k) → result ≡ n.plain (slice_index planned.now.graph.now.code.nodes k) }
{
    let (first, end) = planned.graph.edges_of(k);
    let mut most = 0;
    for e in first..end {
        let cycles = over(planned, visits, e);
        if cycles > most {
            most = cycles;
        }
    }
    most
}
