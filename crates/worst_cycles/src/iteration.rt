//! The greatest cost of one iteration of a loop.

ghost use Rattle.std.specs.Prelude.{◌≡◌, ℕ, ◌+◌, ◌^◌, ◌<◌, ◌≤◌, true, false, length, Some, IfOk};
ghost use Rattle.scale_base.specs.Answer.{AnswersBy};
ghost use Rattle.graph_algorithms.specs.Arcs.{number_in_place};
ghost use Rattle.worst_cycles.specs.Worst.{by_edge};
ghost use Rattle.worst_cycles.specs.Visits.{AreVisits, AreVisitedTo};
ghost use Rattle.worst_cycles.specs.Rests.{AreBodyPlaces, AreRestsFound, IsIterationFound};
ghost use Rattle.worst_cycles.specs.Planned.{IsPlannedGraph};

use crate::pass::LIMIT;
use crate::plan::Plan;
use crate::planned::PlannedGraph;
use crate::rests::{Rests, rest_at_node};
use crate::visits::Visit;
use scale_base::{CYCLE_LIMIT, NoMemory, Refusal, Stop};
use std::alloc::Global;

/// The places of the nodes of a body, ascending.
fn body_places(alloc: Global, body: &[usize], plan: &Plan) -> Result<Vec<usize>, NoMemory>
    requires within { (i : ℕ) → i < length body.now → number_in_place body.now i < length plan.now.places.items }
    ensures { IfOk result (λ steps. AreBodyPlaces body.now plan.now.places.items steps.items) }
{
    let mut steps = Vec::with_capacity(alloc, body.len())?;
    for k in body {
        steps.push(plan.places[*k])?;
    }
    // They stand in few runs where loops lie one in the other, and a stable sort takes each run as it is.
    steps.sort()?;
    Ok(steps)
}

/// Whether a rest is over 2^48 by more than one weight. Where worst cycles are at most 2^48 none is: what an iteration of a loop of
/// bound 0 costs is over the worst cycles by at most one weight.
fn is_over(rest: Option<u64>, weight: u32) -> bool
    ensures over { result ≡ true → (b : ℕ) × (rest ≡ Some b) × (CYCLE_LIMIT + weight < b) }
    ensures within { result ≡ false → (b : ℕ) → rest ≡ Some b → b ≤ CYCLE_LIMIT + 2 ^ 32 }
{
    match rest {
        Some(cycles) => cycles > LIMIT + u64::from(weight),
        None => false,
    }
}

/// The rests of an iteration of loop `l` from the nodes of its body, once all nodes are visited before that of its header, which
/// stands at place `i` of the order.
pub fn rests_of(
    alloc: Global,
    planned: &PlannedGraph<'_>,
    visits: &[Visit],
    l: usize,
    i: usize,
) -> Result<Rests, Stop>
    requires planned { IsPlannedGraph planned.now }
    requires visits { AreVisits planned.now.graph.now visits.now }
    requires within { l < length planned.now.tree.now.headers }
    requires place { i < length planned.now.plan.now.order.items }
    requires header { number_in_place planned.now.tree.now.headers l ≡ number_in_place planned.now.plan.now.order.items i }
    requires visited { AreVisitedTo planned.now.graph.now planned.now.tree.now (by_edge planned.now.weights.now)
        planned.now.plan.now.order.items i visits.now }
    ensures { AnswersBy (λ x. x) result (AreRestsFound planned.now.graph.now planned.now.tree.now (by_edge planned.now.weights.now)
        planned.now.plan.now l) }
{
    let steps = body_places(alloc, planned.tree.body(l), planned.plan)?;
    let found = Vec::with_capacity(alloc, steps.len())?;
    let mut rests = Rests { steps, found };
    for m in 0..rests.steps.len() {
        let k = planned.plan.order[rests.steps[m]];
        let rest = rest_at_node(planned, visits, &rests, l, k);
        if is_over(rest, planned.plan.heaviest) {
            return Err(Stop::Refused(Refusal::TooLong));
        }
        rests.found.push(rest)?;
    }
    Ok(rests)
}

/// The greatest cost of one iteration of loop `l`, once all nodes are visited before that of its header, which stands at
/// place `i` of the order.
pub fn iteration_of(
    alloc: Global,
    planned: &PlannedGraph<'_>,
    visits: &[Visit],
    l: usize,
    i: usize,
) -> Result<u64, Stop>
    requires planned { IsPlannedGraph planned.now }
    requires visits { AreVisits planned.now.graph.now visits.now }
    requires within { l < length planned.now.tree.now.headers }
    requires place { i < length planned.now.plan.now.order.items }
    requires header { number_in_place planned.now.tree.now.headers l ≡ number_in_place planned.now.plan.now.order.items i }
    requires visited { AreVisitedTo planned.now.graph.now planned.now.tree.now (by_edge planned.now.weights.now)
        planned.now.plan.now.order.items i visits.now }
    ensures { AnswersBy (λ x. x) result (IsIterationFound planned.now.graph.now planned.now.tree.now (by_edge planned.now.weights.now) l) }
{
    let rests = rests_of(alloc, planned, visits, l, i)?;
    match rests.at(planned.plan.places[planned.tree.header(l)]) {
        Some(cycles) => Ok(cycles),
        None => Ok(0),
    }
}
