//! The cycles of functions and of loops alone.

ghost use Rattle.std.specs.Prelude.{◌≡◌, ℕ, ◌+◌, ◌*◌, Bool, true, length, IfOk, IfSome, Some};
ghost use Rattle.cost_theory.specs.Graph.{sum_below};
ghost use Rattle.graph_algorithms.specs.Arcs.{number_in_place};
ghost use Rattle.loop_forest.specs.Tree.{IsLoopTree};
ghost use Rattle.worst_walks.specs.Owned.{AreOwn};

use crate::keys::{innermost_loops, outside_functions};
use crate::sums::{table_sum, taken_cycles};
use crate::tallies::tally;
use flow_graph::CodeGraph;
use loop_forest::LoopTree;
use scale_base::NoMemory;
use std::alloc::Global;

/// By function and by loop, the cycles of their own edges.
#[derive(Drop)]
pub struct OwnCycles {
    pub functions: Vec<u64>,
    pub loops: Vec<u64>,
}

/// The own cycles of functions and loops where edges are taken so often. None where a number isn't in range.
pub fn own_cycles(
    alloc: Global,
    graph: &CodeGraph,
    tree: &LoopTree,
    taken: &[u64],
    wide: &[u64],
) -> Result<Option<OwnCycles>, NoMemory>
    requires tree { (extent : ℕ → ℕ → Bool) × IsLoopTree graph.now extent tree.now }
    requires taken { length taken.now ≡ length graph.now.code.edges }
    requires wide { length wide.now ≡ length graph.now.code.edges }
    ensures { IfOk result (λ o. IfSome o (λ own. AreOwn graph.now tree.now taken.now wide.now own)) }
{
    let inner = innermost_loops(alloc, graph, tree)?;
    let outside = outside_functions(alloc, graph, &inner)?;
    let Some(loops) = tally(alloc, tree.loop_count(), &inner, taken, wide)? else {
        return Ok(None);
    };
    let Some(functions) = tally(alloc, graph.function_count(), &outside, taken, wide)? else {
        return Ok(None);
    };
    Ok(Some(OwnCycles { functions, loops }))
}

/// Whether edges that are taken so often take so many cycles together.
pub fn takes(taken: &[u64], wide: &[u64], cycles: u64) -> bool
    requires { length taken.now ≡ length wide.now }
    ensures { result ≡ true → cycles ≡ sum_below (length wide.now) (λ e. number_in_place taken.now e * number_in_place wide.now e) }
{
    match taken_cycles(taken, wide) {
        Some(cost) => cost == cycles,
        None => false,
    }
}

/// Whether the own cycles of functions and loops add up to so many.
pub fn add_up(functions: &[u64], loops: &[u64], cycles: u64) -> bool
    ensures { result ≡ true → sum_below (length functions.now) (number_in_place functions.now) + sum_below (length loops.now)
        (number_in_place loops.now) ≡ cycles }
{
    match table_sum(functions) {
        Some(one) => match table_sum(loops) {
            Some(other) => match one.checked_add(other) {
                Some(sum) => sum == cycles,
                None => false,
            },
            None => false,
        },
        None => false,
    }
}
