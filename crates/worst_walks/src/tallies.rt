//! Sums by number: of costs that are taken so many times.

ghost use Rattle.std.specs.Prelude.{◌≡◌, ℕ, ◌+◌, ◌*◌, ◌<◌, true, length, IfOk, IfSome, nat_eq};
ghost use Rattle.cost_theory.specs.Graph.{only};
ghost use Rattle.graph_algorithms.specs.Arcs.{number_in_place};
ghost use Rattle.worst_walks.specs.Tallies.{IsTally};

use scale_base::NoMemory;
use std::alloc::Global;

/// Adds so many times a cost to an entry of a table, if there is such an entry and the sum is in range.
pub fn add(table: &mut Vec<u64>, i: usize, times: u64, cost: u64) -> bool
    ensures size { length table.new.items ≡ length table.old.items }
    ensures within { result ≡ true → i < length table.old.items }
    ensures added { result ≡ true → (k : ℕ) → number_in_place table.new.items k ≡ number_in_place table.old.items k + times * only
        (nat_eq i k) cost }
{
    if i >= table.len() {
        return false;
    }
    let Some(product) = times.checked_mul(cost) else {
        return false;
    };
    match table[i].checked_add(product) {
        Some(sum) => {
            table[i] = sum;
            true
        }
        None => false,
    }
}

/// By number below `count`: the costs that have it as their key, each so many times as its table says. None where a sum isn't in range.
pub fn tally(
    alloc: Global,
    count: usize,
    keys: &[Option<usize>],
    times: &[u64],
    costs: &[u64],
) -> Result<Option<Vec<u64>>, NoMemory>
    requires times { length times.now ≡ length keys.now }
    requires costs { length costs.now ≡ length keys.now }
    ensures { IfOk result (λ o. IfSome o (λ table. IsTally count keys.now times.now costs.now table.items)) }
{
    let mut table = vec![in alloc; 0; count]?;
    for e in 0..keys.len() {
        if let Some(i) = keys[e] {
            if !add(&mut table, i, times[e], costs[e]) {
                return Ok(None);
            }
        }
    }
    Ok(Some(table))
}
