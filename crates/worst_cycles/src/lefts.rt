//! What is left of a function at each of its nodes.

ghost use Rattle.std.specs.Prelude.{◌≡◌, ◌≢◌, ℕ, ◌+◌, ◌^◌, ◌<◌, ◌≤◌, ◌⊎◌, length, Option, Some, None, IfOk};
ghost use Rattle.scale_base.specs.Answer.{AnswersBy};
ghost use Rattle.graph_algorithms.specs.Arcs.{number_in_place};
ghost use Rattle.worst_cycles.specs.Worst.{by_edge};
ghost use Rattle.worst_cycles.specs.Rests.{AreRests, rest_in};
ghost use Rattle.worst_cycles.specs.Visits.{visit_at};
ghost use Rattle.worst_cycles.specs.Lefts.{AreLeftsFound};
ghost use Rattle.worst_cycles.specs.Planned.{IsVisitedGraph};

use crate::iteration::rests_of;
use crate::plan::Plan;
use crate::planned::VisitedGraph;
use crate::rests::Rests;
use crate::visits::Visit;
use scale_base::{CYCLE_LIMIT, NoMemory, Stop};
use std::alloc::Global;

/// The greater of what is left at a node and what an iteration leaves there: its rest from the node and what is left at the header,
/// less one iteration.
fn raised(left: u64, rest: Option<u64>, header: u64, iteration: u64) -> u64
    requires left { left ≤ 2 ^ 50 }
    requires rest { (b : ℕ) → rest ≡ Some b → b ≤ CYCLE_LIMIT + 2 ^ 32 }
    requires header { header ≤ CYCLE_LIMIT }
    requires iteration { iteration ≤ 2 ^ 50 }
    ensures higher { left ≤ result }
    ensures over { (b : ℕ) → rest ≡ Some b → b + header ≤ result + iteration }
    ensures either { (result ≡ left) ⊎ ((b : ℕ) × (rest ≡ Some b) × (result + iteration ≡ b + header)) }
    ensures small { result ≤ 2 ^ 50 }
{
    match rest {
        Some(cycles) => {
            if cycles + header > left + iteration {
                cycles + header - iteration
            } else {
                left
            }
        }
        None => left,
    }
}

/// Raises what is left at the nodes of a loop's body but for its header, by the rests of an iteration from there.
fn raise_lefts(plan: &Plan, rests: &Rests, header: usize, iteration: u64, left: &mut Vec<u64>)
    requires sizes { length rests.now.found.items ≡ length rests.now.steps.items }
    requires rests { AreRests rests.now }
    requires steps { (m : ℕ) → m < length rests.now.steps.items → number_in_place rests.now.steps.items m < length plan.now.order.items }
    requires order { (i : ℕ) → i < length plan.now.order.items → number_in_place plan.now.order.items i < length left.old.items }
    requires header { header < length left.old.items }
    requires iteration { iteration ≤ 2 ^ 50 }
    requires small { (k : ℕ) → k < length left.old.items → number_in_place left.old.items k ≤ CYCLE_LIMIT }
    ensures size { length left.new.items ≡ length left.old.items }
    ensures higher { (k : ℕ) → number_in_place left.old.items k ≤ number_in_place left.new.items k }
    ensures over { (m b : ℕ) → m < length rests.now.steps.items → rest_in rests.now.found.items m ≡ Some b →
        number_in_place plan.now.order.items (number_in_place rests.now.steps.items m) ≢ header →
        b + number_in_place left.old.items header ≤ number_in_place left.new.items
        (number_in_place plan.now.order.items (number_in_place rests.now.steps.items m)) + iteration }
    ensures either { (k : ℕ) → (number_in_place left.new.items k ≡ number_in_place left.old.items k) ⊎
        ((m : ℕ) × (b : ℕ) × (m < length rests.now.steps.items) × (number_in_place plan.now.order.items
        (number_in_place rests.now.steps.items m) ≡ k) × (k ≢ header) × (rest_in rests.now.found.items m ≡ Some b) ×
        (number_in_place left.new.items k + iteration ≡ b + number_in_place left.old.items header)) }
{
    let whole = left[header];
    for m in 0..rests.steps.len() {
        let k = plan.order[rests.steps[m]];
        if k != header {
            left[k] = raised(left[k], rests.found[m], whole, iteration);
        }
    }
}

/// By node, the greatest cost of a plain path from there.
fn plain_lefts(alloc: Global, visits: &[Visit]) -> Result<Vec<u64>, NoMemory>
    ensures size { IfOk result (λ left. length left.items ≡ length visits.now) }
    ensures each { IfOk result (λ left. (k : ℕ) → k < length visits.now → number_in_place left.items k ≡ (visit_at visits.now k).plain) }
{
    let mut left = Vec::with_capacity(alloc, visits.len())?;
    for visit in visits {
        left.push(visit.plain)?;
    }
    Ok(left)
}

/// By node, what is left of its function there, without the turns that the loops round it have left. Loops are taken from the
/// outermost inwards.
pub fn lefts_of(alloc: Global, visited: &VisitedGraph<'_>) -> Result<Vec<u64>, Stop>
    requires visited { IsVisitedGraph visited.now }
    ensures { AnswersBy (λ left. left.items) result (AreLeftsFound visited.now.planned.graph.now visited.now.planned.tree.now
        (by_edge visited.now.planned.weights.now)) }
{
    let plan = visited.planned.plan;
    let mut left = plain_lefts(alloc, visited.visits)?;
    let mut i = plan.order.len();
    while i > 0 {
        i -= 1;
        let k = plan.order[i];
        if let Some(l) = plan.headed[k] {
            let rests = rests_of(alloc, &visited.planned, visited.visits, l, i)?;
            raise_lefts(plan, &rests, k, visited.visits[k].iteration, &mut left);
        }
    }
    Ok(left)
}
