//! What is left of the callers of each function.

ghost use Rattle.std.specs.Prelude.{◌≡◌, ◌≢◌, ℕ, ◌+◌, ◌<◌, ◌≤◌, ◌⊎◌, length, Some, IfOk};
ghost use Rattle.graph_algorithms.specs.Arcs.{number_in_place};
ghost use Rattle.cost_theory.specs.Worst.{Numbers, IsReturningCall};
ghost use Rattle.flow_graph.specs.FlowGraph.{graph as graph_seen};
ghost use Rattle.loop_forest.specs.Noted.{node_address};
ghost use Rattle.loop_forest.specs.Tree.{loops};
ghost use Rattle.worst_cycles.specs.Worst.{by_edge};
ghost use Rattle.worst_cycles.specs.Visits.{AreSolvedBy};
ghost use Rattle.worst_cycles.specs.Lefts.{AreLefts, AreTurnsRound, AreContexts, AreContextsRaised};
ghost use Rattle.worst_cycles.specs.Planned.{IsVisitedGraph};

use crate::planned::VisitedGraph;
use crate::visits::cost_of;
use flow_graph::CodeGraph;
use scale_base::NoMemory;
use std::alloc::Global;

/// The function that edge `e` calls, if the edge is the call's way back.
fn comes_back(graph: &CodeGraph, e: usize) -> Option<usize>
    requires edge { e < length graph.now.code.edges }
    ensures some { (f : ℕ) → result ≡ Some f → IsReturningCall (graph_seen graph.now) f e }
    ensures whole { (f : ℕ) → IsReturningCall (graph_seen graph.now) f e → result ≡ Some f }
{
    match graph.target(e) {
        Some(_) => graph.callee(e),
        None => None,
    }
}

/// Raises an entry of a table to some cycles.
fn raise(table: &mut Vec<u64>, f: usize, cycles: u64)
    requires { f < length table.old.items }
    ensures size { length table.new.items ≡ length table.old.items }
    ensures higher { number_in_place table.old.items f ≤ number_in_place table.new.items f }
    ensures over { cycles ≤ number_in_place table.new.items f }
    ensures either { (number_in_place table.new.items f ≡ number_in_place table.old.items f) ⊎
        (number_in_place table.new.items f ≡ cycles) }
    ensures others { (g : ℕ) → g ≢ f → number_in_place table.new.items g ≡ number_in_place table.old.items g }
{
    if cycles > table[f] {
        table[f] = cycles;
    }
}

/// Raises the contexts of the functions that node `k` calls to what is left behind these calls.
fn raise_contexts(
    visited: &VisitedGraph<'_>,
    left: &[u64],
    around: &[u64],
    k: usize,
    context: &mut Vec<u64>,
)
    requires visited { IsVisitedGraph visited.now }
    requires left { AreLefts visited.now.planned.graph.now visited.now.planned.tree.now (by_edge visited.now.planned.weights.now) left.now }
    requires around { AreTurnsRound visited.now.planned.graph.now visited.now.planned.tree.now (by_edge visited.now.planned.weights.now)
        around.now }
    requires node { k < length visited.now.planned.graph.now.code.nodes }
    requires size { length context.old.items ≡ length visited.now.planned.graph.now.code.functions }
    requires own { (n : Numbers) → AreSolvedBy visited.now.planned.graph.now visited.now.planned.tree.now
        (by_edge visited.now.planned.weights.now) n → number_in_place context.old.items
        ((graph_seen visited.now.planned.graph.now).owner (node_address visited.now.planned.graph.now k)) ≡ n.context
        ((graph_seen visited.now.planned.graph.now).owner (node_address visited.now.planned.graph.now k)) }
    ensures size { length context.new.items ≡ length context.old.items }
    ensures raised { (n : Numbers) → AreSolvedBy visited.now.planned.graph.now visited.now.planned.tree.now
        (by_edge visited.now.planned.weights.now) n → AreContextsRaised (graph_seen visited.now.planned.graph.now)
        (loops visited.now.planned.graph.now visited.now.planned.tree.now) (by_edge visited.now.planned.weights.now) n
        (node_address visited.now.planned.graph.now k) context.old.items context.new.items }
{
    let graph = visited.planned.graph;
    let own = context[graph.owner(k)];
    let (first, end) = graph.edges_of(k);
    for e in first..end {
        if let Some(f) = comes_back(graph, e) {
            let cost = cost_of(&visited.planned, visited.visits, e);
            let behind = left[k].saturating_sub(cost) + around[k] + own;
            raise(context, f, behind);
        }
    }
}

/// By function, what is left of its callers behind a call of it: the greatest over its calls. Callers are taken before those that
/// they call.
pub fn contexts_of(
    alloc: Global,
    visited: &VisitedGraph<'_>,
    left: &[u64],
    around: &[u64],
) -> Result<Vec<u64>, NoMemory>
    requires visited { IsVisitedGraph visited.now }
    requires left { AreLefts visited.now.planned.graph.now visited.now.planned.tree.now (by_edge visited.now.planned.weights.now) left.now }
    requires around { AreTurnsRound visited.now.planned.graph.now visited.now.planned.tree.now (by_edge visited.now.planned.weights.now)
        around.now }
    ensures { IfOk result (λ context. AreContexts visited.now.planned.graph.now visited.now.planned.tree.now
        (by_edge visited.now.planned.weights.now) context.items) }
{
    let plan = visited.planned.plan;
    let mut context = vec![in alloc; 0; visited.planned.graph.function_count()]?;
    let mut i = plan.order.len();
    while i > 0 {
        i -= 1;
        raise_contexts(visited, left, around, plan.order[i], &mut context);
    }
    Ok(context)
}
