//! Least costs of walks, by passes over the edges until nothing changes.
//! Tests: crates/graph_tests/src/least_numbers.rt.
#![tactic(auto)]

ghost use Rattle.std.specs.Prelude.{◌≡◌, ℕ, ◌*◌, ◌+◌, ◌<◌, ◌≤◌, ◌^◌, true, false, length, Some, None, slice_get, IfOk, OnOk, Bool};
ghost use Rattle.graph_algorithms.specs.Arcs.{number_in_place};
ghost use Rattle.cost_theory.specs.Accepted.{AreWeights};
ghost use Rattle.flow_graph.specs.FlowGraph.{graph as graph_seen};
ghost use Rattle.loop_forest.specs.Tree.{loops, IsLoopTree};
ghost use Rattle.least_cycles.specs.Found.{HasWorstInRange, IsLeastOf, AreSmallLeast};
ghost use Rattle.least_cycles.specs.Hops.{number_in_table, offered, improves, relaxed, IsHop, HeadBelow, AreHops, IsHopTable, AreLeastCosts, fall};

mod buckets;
mod charges;
mod ends;
mod function;
mod numbers;
mod order;
mod plan;
mod prices;
mod turns;
mod walks;

use ends::behinds_of;
use flow_graph::{CodeGraph, Weights};
use loop_forest::LoopTree;
pub use numbers::LeastNumbers;
use numbers::{after_of, ends_of};
use plan::make_plan;
use scale_base::NoMemory;
use std::alloc::Global;
use walks::walks_of;

/// Where an edge leads: it is the last of a walk, or it leads to a node, or to neither.
#[derive(Clone, Copy, Drop)]
pub enum Way {
    Last,
    To(usize),
    Stop,
}

/// An edge, from the number of a node.
#[derive(Clone, Copy, Drop)]
pub struct Hop {
    pub tail: usize,
    pub way: Way,
    pub cost: u64,
}

// The cost of a walk over a hop and on by the table.
fn offered(table: &[Option<u128>], hop: &Hop) -> Option<u128>
    requires head { HeadBelow (length table.now) hop.now.way }
    requires low { (v x : ℕ) → number_in_table table.now v ≡ Some x → x ≤ 2 ^ 126 }
    ensures { result ≡ offered table.now hop.now }
{
    match hop.way {
        Way::Last => Some(u128::from(hop.cost)),
        Way::To(head) => match table[head] {
            Some(behind) => Some(u128::from(hop.cost) + behind),
            None => None,
        },
        Way::Stop => None,
    }
}

// Takes what a hop offers its tail where it is less, and tells whether it was.
fn relax(table: &mut [Option<u128>], hop: &Hop) -> bool
    requires tail { hop.now.tail < length table.old }
    requires head { HeadBelow (length table.old) hop.now.way }
    requires low { (v x : ℕ) → number_in_table table.old v ≡ Some x → x ≤ 2 ^ 126 }
    ensures result { result ≡ improves table.old hop.now }
    ensures table { table.new ≡ relaxed table.old hop.now }
{
    let Some(through) = offered(table, hop) else {
        return false;
    };
    let less = match table[hop.tail] {
        None => true,
        Some(old) => through < old,
    };
    if less {
        table[hop.tail] = Some(through);
    }
    less
}

// Relaxes each hop once, and tells whether the table changed.
fn pass(table: &mut [Option<u128>], hops: &[Hop], most: u64) -> bool
    requires table { IsHopTable (length table.old) most hops.now table.old }
    requires hops { AreHops (length table.old) most hops.now }
    requires small { length table.old * most ≤ 2 ^ 126 }
    ensures table { IsHopTable (length table.old) most hops.now table.new }
    ensures changed { result ≡ true → fall (length table.old * most) table.new < fall (length table.old * most) table.old }
    ensures done { result ≡ false → AreLeastCosts hops.now table.new }
{
    let mut changed = false;
    for hop in hops {
        if relax(table, hop) {
            changed = true;
        }
    }
    changed
}

/// The least costs of walks over a last edge, by number of the node.
pub fn least_costs(
    alloc: Global,
    count: usize,
    hops: &[Hop],
    most: u64,
) -> Result<Vec<Option<u128>>, NoMemory>
    requires hops { AreHops count most hops.now }
    requires small { count * most ≤ 2 ^ 126 }
    ensures least { IfOk result (λ t. AreLeastCosts hops.now t.items) }
    ensures size { IfOk result (λ t. length t.items ≡ count) }
    ensures low { IfOk result (λ t. (v x : ℕ) → number_in_table t.items v ≡ Some x → x ≤ count * most) }
{
    let mut table: Vec<Option<u128>> = vec![in alloc; None; count]?;
    while pass(&mut table, hops, most) {}
    Ok(table)
}

/// The least cycles from each node of a graph to a return of its function and to an end of the run, and behind each edge to an end
/// of the run, under weights of its edges. A closed loop is charged to the edges that enter it with the turns that it has to take.
/// The program's worst cycles are at most 2^48.
pub fn least(
    alloc: Global,
    graph: &CodeGraph,
    tree: &LoopTree,
    weights: &Weights,
) -> Result<LeastNumbers, NoMemory>
    requires tree { (extent : ℕ → ℕ → Bool) × IsLoopTree graph.now extent tree.now }
    requires weights { length weights.now ≡ length graph.now.code.edges }
    requires calls { AreWeights (graph_seen graph.now) (number_in_place weights.now) }
    requires worst { HasWorstInRange graph.now (loops graph.now tree.now) (number_in_place weights.now) }
    ensures least { IfOk result (λ x. IsLeastOf graph.now (loops graph.now tree.now) (number_in_place weights.now) x) }
    ensures small { IfOk result (λ x. AreSmallLeast graph.now x) }
{
    // Its contract says what is so of the graph.
    let _nodes = graph.node_count();
    let _functions = graph.function_count();
    let plan = make_plan(alloc, graph, tree, weights)?;
    let (walks, charges) = walks_of(alloc, graph, tree, &plan)?;
    let behind = behinds_of(alloc, graph, &walks)?;
    let ends = ends_of(alloc, graph, &walks, &behind)?;
    let after = after_of(alloc, graph, &walks, &behind, &charges)?;
    Ok(LeastNumbers::from_parts(walks.returns, ends, after))
}
