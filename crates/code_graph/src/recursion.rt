//! The calls among functions: an order of them, callees first, or the cycle that refuses them.

ghost use Rattle.std.specs.Prelude.{◌≡◌, ◌<◌, ◌≤◌, ◌^◌, ℕ, length, map, slice_get, slice_index, Some, Err, IfOk};
ghost use Rattle.scale_base.specs.Answer.{AnswersBy};
ghost use Rattle.code_graph.specs.Assembling.{AreCallArcs, AreCallsWithin, IsOrdered, IsTurned};

use graph_algorithms::{Arc, Order, least_first, sort};
use scale_base::{Cycle, NoMemory, Refusal, Stop};
use std::alloc::Global;

/// The calls of nodes, from their functions to those that they call.
fn call_arcs(
    alloc: Global,
    owners: &[usize],
    callees: &[Option<usize>],
) -> Result<Vec<Arc>, NoMemory>
    requires { length callees.now ≡ length owners.now }
    ensures arcs { IfOk result (λ arcs. AreCallArcs (length owners.now) owners.now callees.now arcs.items) }
    ensures few { IfOk result (λ arcs. length arcs.items ≤ length owners.now) }
{
    let mut arcs = Vec::new(alloc);
    for k in 0..owners.len() {
        if let Some(to) = callees[k] {
            let from = owners[k];
            arcs.push(Arc { from, to })?;
        }
    }
    Ok(arcs)
}

/// The entries of functions that call each other round, the least first.
fn cycle_of(alloc: Global, entries: &[u32], cycle: &[usize]) -> Result<Cycle, NoMemory>
    requires some { 0 < length cycle.now }
    requires within { (i : ℕ) → i < length cycle.now → slice_index cycle.now i < length entries.now }
    ensures { IfOk result (λ named. IsTurned (map (slice_index entries.now) cycle.now) named) }
{
    let mut numbers = Vec::new(alloc);
    for f in cycle {
        numbers.push(entries[*f])?;
    }
    Ok(Cycle::from_vec(least_first(numbers)))
}

/// The numbers of functions, callees first. Refused where functions call each other round.
pub fn call_order_of(
    alloc: Global,
    entries: &[u32],
    owners: &[usize],
    callees: &[Option<usize>],
) -> Result<Vec<usize>, Stop>
    requires entries { length entries.now < 2 ^ 32 }
    requires nodes { length owners.now < 2 ^ 32 }
    requires callees { length callees.now ≡ length owners.now }
    requires within { AreCallsWithin (length entries.now) owners.now callees.now }
    ensures { AnswersBy (λ order. order.items) result (IsOrdered entries.now owners.now callees.now) }
{
    let arcs = call_arcs(alloc, owners, callees)?;
    match sort(alloc, entries.len(), &arcs)? {
        Order::Sorted(order) => Ok(order),
        Order::Cycle(cycle) => {
            let named = cycle_of(alloc, entries, &cycle)?;
            Err(Stop::Refused(Refusal::Recursion(named)))
        }
    }
}
