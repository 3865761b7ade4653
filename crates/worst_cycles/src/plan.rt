//! What is known of the nodes before the pass.

ghost use Rattle.std.specs.Prelude.{◌≡◌, ℕ, ◌<◌, length, IfOk};
ghost use Rattle.graph_algorithms.specs.Arcs.{number_in_place, AreDistinct};
ghost use Rattle.flow_graph.specs.FlowGraph.{IsFlowGraph};
ghost use Rattle.worst_cycles.specs.Worst.{AreUpTo};
ghost use Rattle.worst_cycles.specs.Needs.{ArePlaces, HasTree};
ghost use Rattle.worst_cycles.specs.Visits.{AreHeaded, IsWorstPlan};

use crate::entries::entry_nodes;
use crate::order::needed_first;
use flow_graph::{CodeGraph, Weights};
use loop_forest::LoopTree;
use scale_base::NoMemory;
use std::alloc::Global;

#[derive(Drop)]
pub struct Plan {
    /// By function, the number of its entry's node.
    pub entries: Vec<usize>,
    /// The numbers of the nodes, each behind what is needed for it.
    pub order: Vec<usize>,
    /// By node, its place in the order.
    pub places: Vec<usize>,
    /// By node, the loop whose header it is.
    pub headed: Vec<Option<usize>>,
    /// The greatest weight of an edge.
    pub heaviest: u32,
}

/// By number, its place in an order of all numbers below a count.
fn places_of(alloc: Global, order: &[usize], count: usize) -> Result<Vec<usize>, NoMemory>
    requires within { (i : ℕ) → i < length order.now → number_in_place order.now i < count }
    requires distinct { AreDistinct order.now }
    ensures size { IfOk result (λ places. length places.items ≡ count) }
    ensures places { IfOk result (λ places. ArePlaces order.now places.items) }
{
    let mut places = vec![in alloc; 0; count]?;
    for (i, k) in order.iter().enumerate() {
        places[*k] = i;
    }
    Ok(places)
}

/// By node, the loop whose header it is.
fn headed_loops(
    alloc: Global,
    tree: &LoopTree,
    count: usize,
) -> Result<Vec<Option<usize>>, NoMemory>
    requires within { (k : ℕ) → k < length tree.now.headers → number_in_place tree.now.headers k < count }
    ensures size { IfOk result (λ headed. length headed.items ≡ count) }
    ensures headed { IfOk result (λ headed. AreHeaded tree.now headed.items) }
{
    let mut headed = vec![in alloc; None; count]?;
    for l in 0..tree.loop_count() {
        headed[tree.header(l)] = Some(l);
    }
    Ok(headed)
}

/// The greatest weight.
fn heaviest(weights: &Weights) -> u32
    ensures { AreUpTo weights.now result }
{
    let mut most = 0;
    for e in 0..weights.count() {
        let weight = *weights.get(e);
        if weight > most {
            most = weight;
        }
    }
    most
}

/// The entries, an order, the places in it and the headers of a graph's nodes, and the greatest weight.
pub fn make_plan(
    alloc: Global,
    graph: &CodeGraph,
    tree: &LoopTree,
    weights: &Weights,
) -> Result<Plan, NoMemory>
    requires tree { HasTree graph.now tree.now }
    ensures flow { IfOk result (λ plan. IsFlowGraph graph.now) }
    ensures plan { IfOk result (λ plan. IsWorstPlan graph.now tree.now plan) }
    ensures heaviest { IfOk result (λ plan. AreUpTo weights.now plan.heaviest) }
{
    let count = graph.node_count();
    let entries = entry_nodes(alloc, graph)?;
    let order = needed_first(alloc, graph, tree, count, &entries)?;
    let places = places_of(alloc, &order, count)?;
    let headed = headed_loops(alloc, tree, count)?;
    Ok(Plan {
        entries,
        order,
        places,
        headed,
        heaviest: heaviest(weights),
    })
}
