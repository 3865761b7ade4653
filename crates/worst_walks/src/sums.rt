//! Products and sums of numbers of a walk, none where one isn't in range.

ghost use Rattle.std.specs.Prelude.{◌≡◌, ℕ, ◌+◌, ◌*◌, ◌<◌, true, length, slice_index, IfOk, IfSome, Some};
ghost use Rattle.cost_theory.specs.Graph.{sum_below};
ghost use Rattle.graph_algorithms.specs.Arcs.{number_in_place};
ghost use Rattle.worst_cycles.specs.Worst.{by_edge};

use flow_graph::Weights;
use loop_forest::LoopTree;
use scale_base::NoMemory;
use std::alloc::Global;

/// The weights of the edges, as wide as what they are multiplied with.
pub fn wide_weights(alloc: Global, weights: &Weights) -> Result<Vec<u64>, NoMemory>
    ensures size { IfOk result (λ wide. length wide.items ≡ length weights.now) }
    ensures each { IfOk result (λ wide. (e : ℕ) → e < length weights.now → number_in_place wide.items e ≡ by_edge weights.now e) }
{
    let mut wide = Vec::new(alloc);
    for e in 0..weights.count() {
        wide.push(u64::from(*weights.get(e)))?;
    }
    Ok(wide)
}

/// By loop, how often its iteration is gone where each entry takes as many back edges as it may.
pub fn all_turns(
    alloc: Global,
    bounds: &[u32],
    entries: &[u64],
) -> Result<Option<Vec<u64>>, NoMemory>
    requires { length bounds.now ≡ length entries.now }
    ensures size { IfOk result (λ o. IfSome o (λ turns. length turns.items ≡ length entries.now)) }
    ensures each { IfOk result (λ o. IfSome o (λ turns. (k : ℕ) → k < length entries.now →
        number_in_place turns.items k ≡ number_in_place entries.now k * slice_index bounds.now k)) }
{
    let mut turns = Vec::new(alloc);
    for l in 0..entries.len() {
        let Some(times) = entries[l].checked_mul(u64::from(bounds[l])) else {
            return Ok(None);
        };
        turns.push(times)?;
    }
    Ok(Some(turns))
}

/// The cycles of edges that are taken so often.
pub fn taken_cycles(taken: &[u64], weights: &[u64]) -> Option<u64>
    requires { length taken.now ≡ length weights.now }
    ensures { IfSome result (λ cycles. cycles ≡ sum_below (length weights.now)
        (λ e. number_in_place taken.now e * number_in_place weights.now e)) }
{
    let mut cycles: u64 = 0;
    for e in 0..weights.len() {
        let Some(product) = taken[e].checked_mul(weights[e]) else {
            return None;
        };
        let Some(sum) = cycles.checked_add(product) else {
            return None;
        };
        cycles = sum;
    }
    Some(cycles)
}

/// The sum of a table.
pub fn table_sum(table: &[u64]) -> Option<u64>
    ensures { IfSome result (λ sum. sum ≡ sum_below (length table.now) (number_in_place table.now)) }
{
    let mut sum: u64 = 0;
    for k in 0..table.len() {
        let Some(more) = sum.checked_add(table[k]) else {
            return None;
        };
        sum = more;
    }
    Some(sum)
}

/// Whether each number of a table is the sum of those at its place in two others.
pub fn are_sums(one: &[u64], other: &[u64], sums: &[u64]) -> bool
    requires one { length one.now ≡ length sums.now }
    requires other { length other.now ≡ length sums.now }
    ensures { result ≡ true → (k : ℕ) → k < length sums.now → number_in_place sums.now k ≡ number_in_place one.now k + number_in_place
        other.now k }
{
    for k in 0..sums.len() {
        match one[k].checked_add(other[k]) {
            Some(sum) => {
                if sum != sums[k] {
                    return false;
                }
            }
            None => return false,
        }
    }
    true
}
