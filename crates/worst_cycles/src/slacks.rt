//! The slacks of edges, and the rests behind them.

ghost use Rattle.std.specs.Prelude.{◌≡◌, ◌+◌, ◌<◌, length, slice_get, Some, IfOk};
ghost use Rattle.cost_theory.specs.Worst.{Numbers, cost, slack, rest};
ghost use Rattle.flow_graph.specs.FlowGraph.{graph as graph_seen};
ghost use Rattle.loop_forest.specs.Tree.{loops};
ghost use Rattle.worst_cycles.specs.Worst.{by_edge, slack_at, rest_at};
ghost use Rattle.worst_cycles.specs.Visits.{AreSolvedBy};
ghost use Rattle.worst_cycles.specs.Lefts.{AreLefts, AreTurnsRound, AreContexts, AreSlacks, AreRestsBehind};
ghost use Rattle.worst_cycles.specs.Planned.{IsVisitedGraph};

use crate::planned::VisitedGraph;
use crate::visits::cost_of;
use scale_base::NoMemory;
use std::alloc::Global;

/// The slack of edge `e`, which leads to node `to`: what is left before it, less its cost and what is left behind it, and one
/// iteration more over a back edge.
fn slack_over(visited: &VisitedGraph<'_>, left: &[u64], e: usize, to: usize) -> u64
    requires visited { IsVisitedGraph visited.now }
    requires left { AreLefts visited.now.planned.graph.now visited.now.planned.tree.now (by_edge visited.now.planned.weights.now) left.now }
    requires edge { e < length visited.now.planned.graph.now.code.edges }
    requires node { to < length visited.now.planned.graph.now.code.nodes }
    requires leads { (graph_seen visited.now.planned.graph.now).target e ≡ slice_get visited.now.planned.graph.now.code.nodes to }
    ensures { (n : Numbers) → AreSolvedBy visited.now.planned.graph.now visited.now.planned.tree.now
        (by_edge visited.now.planned.weights.now) n → result ≡ slack (graph_seen visited.now.planned.graph.now)
        (loops visited.now.planned.graph.now visited.now.planned.tree.now) n (cost (graph_seen visited.now.planned.graph.now) n
        (by_edge visited.now.planned.weights.now)) e }
{
    let planned = &visited.planned;
    let visits = visited.visits;
    let before = left[planned.graph.source(e)];
    let after = cost_of(planned, visits, e) + left[to];
    match planned.tree.back_loop(e) {
        Some(_) => before + visits[to].iteration - after,
        None => before - (visits[to].turns + after),
    }
}

/// By edge, its slack; 0 for one that leads to no node.
pub fn slacks_of(
    alloc: Global,
    visited: &VisitedGraph<'_>,
    left: &[u64],
) -> Result<Vec<u64>, NoMemory>
    requires visited { IsVisitedGraph visited.now }
    requires left { AreLefts visited.now.planned.graph.now visited.now.planned.tree.now (by_edge visited.now.planned.weights.now) left.now }
    ensures { IfOk result (λ slacks. AreSlacks visited.now.planned.graph.now visited.now.planned.tree.now
        (by_edge visited.now.planned.weights.now) slacks.items) }
{
    let mut slacks = Vec::with_capacity(alloc, visited.planned.graph.edge_count())?;
    for e in 0..visited.planned.graph.edge_count() {
        slacks.push(slack_of(visited, left, e))?;
    }
    Ok(slacks)
}

fn slack_of(visited: &VisitedGraph<'_>, left: &[u64], e: usize) -> u64
    requires visited { IsVisitedGraph visited.now }
    requires left { AreLefts visited.now.planned.graph.now visited.now.planned.tree.now (by_edge visited.now.planned.weights.now) left.now }
    requires edge { e < length visited.now.planned.graph.now.code.edges }
    ensures { (n : Numbers) → AreSolvedBy visited.now.planned.graph.now visited.now.planned.tree.now
        (by_edge visited.now.planned.weights.now) n → result ≡ slack_at (graph_seen visited.now.planned.graph.now)
        (loops visited.now.planned.graph.now visited.now.planned.tree.now) (by_edge visited.now.planned.weights.now) n e }
{
    match visited.planned.graph.target(e) {
        Some(to) => slack_over(visited, left, e, to),
        None => 0,
    }
}

/// The rest behind edge `e`: what is left at the node to which it leads, all turns round that node, and the context of the
/// function; 0 for an edge that leads to no node.
fn rest_of(
    visited: &VisitedGraph<'_>,
    left: &[u64],
    around: &[u64],
    context: &[u64],
    e: usize,
) -> u64
    requires visited { IsVisitedGraph visited.now }
    requires left { AreLefts visited.now.planned.graph.now visited.now.planned.tree.now (by_edge visited.now.planned.weights.now) left.now }
    requires around { AreTurnsRound visited.now.planned.graph.now visited.now.planned.tree.now (by_edge visited.now.planned.weights.now)
        around.now }
    requires context { AreContexts visited.now.planned.graph.now visited.now.planned.tree.now (by_edge visited.now.planned.weights.now)
        context.now }
    requires edge { e < length visited.now.planned.graph.now.code.edges }
    ensures { (n : Numbers) → AreSolvedBy visited.now.planned.graph.now visited.now.planned.tree.now
        (by_edge visited.now.planned.weights.now) n → result ≡ rest_at (graph_seen visited.now.planned.graph.now)
        (loops visited.now.planned.graph.now visited.now.planned.tree.now) n e }
{
    let graph = visited.planned.graph;
    match graph.target(e) {
        Some(to) => left[to] + around[to] + context[graph.owner(graph.source(e))],
        None => 0,
    }
}

/// By edge, the rest behind it; 0 for one that leads to no node.
pub fn rests_behind(
    alloc: Global,
    visited: &VisitedGraph<'_>,
    left: &[u64],
    around: &[u64],
    context: &[u64],
) -> Result<Vec<u64>, NoMemory>
    requires visited { IsVisitedGraph visited.now }
    requires left { AreLefts visited.now.planned.graph.now visited.now.planned.tree.now (by_edge visited.now.planned.weights.now) left.now }
    requires around { AreTurnsRound visited.now.planned.graph.now visited.now.planned.tree.now (by_edge visited.now.planned.weights.now)
        around.now }
    requires context { AreContexts visited.now.planned.graph.now visited.now.planned.tree.now (by_edge visited.now.planned.weights.now)
        context.now }
    ensures { IfOk result (λ rests. AreRestsBehind visited.now.planned.graph.now visited.now.planned.tree.now
        (by_edge visited.now.planned.weights.now) rests.items) }
{
    let mut rests = Vec::with_capacity(alloc, visited.planned.graph.edge_count())?;
    for e in 0..visited.planned.graph.edge_count() {
        rests.push(rest_of(visited, left, around, context, e))?;
    }
    Ok(rests)
}
