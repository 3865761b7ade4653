//! The pass over the nodes of a graph.

ghost use Rattle.std.specs.Prelude.{◌≡◌, ℕ, ◌*◌, ◌^◌, ◌<◌, ◌≤◌, length, Some, None};
ghost use Rattle.scale_base.specs.Answer.{AnswersBy};
ghost use Rattle.graph_algorithms.specs.Arcs.{number_in_place};
ghost use Rattle.worst_cycles.specs.Worst.{by_edge};
ghost use Rattle.worst_cycles.specs.Visits.{AreVisits, AreVisitedTo, AreTurnsFound, IsVisitFound, AreVisitsFound};
ghost use Rattle.worst_cycles.specs.Planned.{IsPlannedGraph};

use crate::iteration::iteration_of;
use crate::planned::PlannedGraph;
use crate::visits::{Visit, plain_at_node};
use scale_base::{CYCLE_LIMIT, Refusal, Stop};
use std::alloc::Global;

/// The most worst cycles that a program may have.
pub const LIMIT: u64 = 1 << 48;

/// A bound times the cost of an iteration, if it is at most 2^48.
fn all_turns(bound: u32, iteration: u64) -> Option<u64>
    ensures some { (x : ℕ) → result ≡ Some x → (x ≡ bound * iteration) × (x ≤ CYCLE_LIMIT) }
    ensures none { result ≡ None → CYCLE_LIMIT < bound * iteration }
{
    let turns = u128::from(bound) * u128::from(iteration);
    if turns > u128::from(LIMIT) {
        return None;
    }
    Some(turns as u64)
}

/// All turns and one iteration of the loop whose header stands at place `i` of the order; 0 where the node there is no header.
fn turns_at(
    alloc: Global,
    planned: &PlannedGraph<'_>,
    visits: &[Visit],
    i: usize,
) -> Result<(u64, u64), Stop>
    requires planned { IsPlannedGraph planned.now }
    requires visits { AreVisits planned.now.graph.now visits.now }
    requires place { i < length planned.now.plan.now.order.items }
    requires visited { AreVisitedTo planned.now.graph.now planned.now.tree.now (by_edge planned.now.weights.now)
        planned.now.plan.now.order.items i visits.now }
    ensures { AnswersBy (λ x. x) result (AreTurnsFound planned.now.graph.now planned.now.tree.now (by_edge planned.now.weights.now)
        (number_in_place planned.now.plan.now.order.items i)) }
{
    let Some(l) = planned.plan.headed[planned.plan.order[i]] else {
        return Ok((0, 0));
    };
    let iteration = iteration_of(alloc, planned, visits, l, i)?;
    match all_turns(planned.tree.bound(l), iteration) {
        Some(turns) => Ok((turns, iteration)),
        None => Err(Stop::Refused(Refusal::TooLong)),
    }
}

/// What is found at the node that stands at place `i` of the order, once all nodes are visited before it.
fn visit_node(
    alloc: Global,
    planned: &PlannedGraph<'_>,
    visits: &[Visit],
    i: usize,
) -> Result<Visit, Stop>
    requires planned { IsPlannedGraph planned.now }
    requires visits { AreVisits planned.now.graph.now visits.now }
    requires place { i < length planned.now.plan.now.order.items }
    requires visited { AreVisitedTo planned.now.graph.now planned.now.tree.now (by_edge planned.now.weights.now)
        planned.now.plan.now.order.items i visits.now }
    ensures { AnswersBy (λ x. x) result (IsVisitFound planned.now.graph.now planned.now.tree.now (by_edge planned.now.weights.now)
        (number_in_place planned.now.plan.now.order.items i)) }
{
    let (turns, iteration) = turns_at(alloc, planned, visits, i)?;
    let plain = plain_at_node(planned, visits, planned.plan.order[i]);
    if plain > LIMIT {
        return Err(Stop::Refused(Refusal::TooLong));
    }
    Ok(Visit {
        plain,
        turns,
        iteration,
    })
}

/// By node, what is found there.
pub fn visit_nodes(alloc: Global, planned: &PlannedGraph<'_>) -> Result<Vec<Visit>, Stop>
    requires planned { IsPlannedGraph planned.now }
    ensures { AnswersBy (λ visits. visits.items) result (AreVisitsFound planned.now.graph.now planned.now.tree.now
        (by_edge planned.now.weights.now)) }
{
    let unvisited = Visit {
        plain: 0,
        turns: 0,
        iteration: 0,
    };
    let mut visits = vec![in alloc; unvisited; planned.graph.node_count()]?;
    for i in 0..planned.plan.order.len() {
        visits[planned.plan.order[i]] = visit_node(alloc, planned, &visits, i)?;
    }
    Ok(visits)
}
