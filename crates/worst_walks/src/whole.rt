//! The cycles of functions and of loops with all that they call and that lies within them.

ghost use Rattle.std.specs.Prelude.{◌≡◌, ℕ, ◌*◌, ◌<◌, length, slice_get, Some, IfOk, IfSome};
ghost use Rattle.cost_theory.specs.Graph.{total};
ghost use Rattle.cost_theory.specs.Lists.{body_of};
ghost use Rattle.graph_algorithms.specs.Arcs.{number_in_place};
ghost use Rattle.flow_graph.specs.FlowGraph.{graph as graph_seen};
ghost use Rattle.loop_forest.specs.Tree.{loops};
ghost use Rattle.worst_cycles.specs.Worst.{by_edge};
ghost use Rattle.worst_walks.specs.Explained.{IsWorstWalk};
ghost use Rattle.worst_walks.specs.Known.{IsKnown, HasWholeSizes};
ghost use Rattle.worst_walks.specs.Tallies.{key_at};
ghost use Rattle.worst_walks.specs.Whole.{AreWholeCycles, AreWorstOf, IsSourceKey, body_taken, listed_cost};

use crate::counts::WalkCounts;
use crate::search::Known;
use crate::tallies::tally;
use flow_graph::CodeGraph;
use loop_forest::LoopTree;
use scale_base::NoMemory;
use std::alloc::Global;
use worst_cycles::WorstNumbers;

/// Cycles with those of called functions and of loops within: by function of all its calls, and by loop of all its entries.
#[derive(Drop)]
pub struct WholeCycles {
    pub functions: Vec<u64>,
    pub loops: Vec<u64>,
}

/// The cycles of edge `e` with the worst cycles of the function that it calls. None where the sum isn't in range.
fn called_cycles(known: &Known<'_>, e: usize) -> Option<u64>
    requires known { IsKnown known.now }
    requires edge { e < length known.now.graph.now.code.edges }
    ensures { IfSome result (λ cycles. cycles ≡ listed_cost (graph_seen known.now.graph.now) (by_edge known.now.weights.now)
        known.now.worst.now.worst e) }
{
    let weight = u64::from(*known.weights.get(e));
    let Some(f) = known.graph.callee(e) else {
        return Some(weight);
    };
    if f >= known.graph.function_count() {
        return None;
    }
    weight.checked_add(known.worst.function(f))
}

/// By edge, its cycles with the worst cycles of the function that it calls.
fn edge_cycles(alloc: Global, known: &Known<'_>) -> Result<Option<Vec<u64>>, NoMemory>
    requires { IsKnown known.now }
    ensures size { IfOk result (λ o. IfSome o (λ cycles. length cycles.items ≡ length known.now.graph.now.code.edges)) }
    ensures each { IfOk result (λ o. IfSome o (λ cycles. (e : ℕ) → e < length known.now.graph.now.code.edges →
        number_in_place cycles.items e ≡ listed_cost (graph_seen known.now.graph.now) (by_edge known.now.weights.now)
        known.now.worst.now.worst e)) }
{
    let mut cycles = Vec::new(alloc);
    for e in 0..known.graph.edge_count() {
        let Some(sum) = called_cycles(known, e) else {
            return Ok(None);
        };
        cycles.push(sum)?;
    }
    Ok(Some(cycles))
}

/// By edge, the node at which it starts.
fn source_nodes(alloc: Global, graph: &CodeGraph) -> Result<Vec<Option<usize>>, NoMemory>
    ensures size { IfOk result (λ nodes. length nodes.items ≡ length graph.now.code.edges) }
    ensures each { IfOk result (λ nodes. (e : ℕ) → e < length graph.now.code.edges → IsSourceKey graph.now e (key_at nodes.items e)) }
{
    let mut nodes = Vec::new(alloc);
    for e in 0..graph.edge_count() {
        nodes.push(Some(graph.source(e)))?;
    }
    Ok(nodes)
}

/// The sum of a table's numbers at some places. None where it isn't in range.
fn sum_at(table: &[u64], places: &[usize]) -> Option<u64>
    ensures { IfSome result (λ sum. sum ≡ total (number_in_place table.now) places.now) }
{
    let mut sum: u64 = 0;
    for place in places {
        if *place >= table.len() {
            return None;
        }
        let Some(more) = sum.checked_add(table[*place]) else {
            return None;
        };
        sum = more;
    }
    Some(sum)
}

/// By loop, the cycles of the nodes of its body.
fn body_sums(alloc: Global, tree: &LoopTree, by_node: &[u64]) -> Result<Option<Vec<u64>>, NoMemory>
    ensures size { IfOk result (λ o. IfSome o (λ sums. length sums.items ≡ length tree.now.headers)) }
    ensures each { IfOk result (λ o. IfSome o (λ sums. (k : ℕ) → k < length tree.now.headers →
        number_in_place sums.items k ≡ total (number_in_place by_node.now) (body_of tree.now.bodies k))) }
{
    let mut sums = Vec::new(alloc);
    for l in 0..tree.loop_count() {
        let Some(sum) = sum_at(by_node, tree.body(l)) else {
            return Ok(None);
        };
        sums.push(sum)?;
    }
    Ok(Some(sums))
}

/// By function, the worst cycles of all its calls.
fn function_sums(
    alloc: Global,
    worst: &WorstNumbers,
    calls: &[u64],
) -> Result<Option<Vec<u64>>, NoMemory>
    requires { length worst.now.worst ≡ length calls.now }
    ensures size { IfOk result (λ o. IfSome o (λ sums. length sums.items ≡ length calls.now)) }
    ensures each { IfOk result (λ o. IfSome o (λ sums. (f : ℕ) → f < length calls.now →
        number_in_place sums.items f ≡ number_in_place calls.now f * number_in_place worst.now.worst f)) }
{
    let mut sums = Vec::new(alloc);
    for f in 0..calls.len() {
        let Some(product) = calls[f].checked_mul(worst.function(f)) else {
            return Ok(None);
        };
        sums.push(product)?;
    }
    Ok(Some(sums))
}

/// By loop, the cycles of the edges that start in its body, each with those of the function that it calls.
fn loop_sums(alloc: Global, known: &Known<'_>, taken: &[u64]) -> Result<Option<Vec<u64>>, NoMemory>
    requires known { IsKnown known.now }
    requires taken { length taken.now ≡ length known.now.graph.now.code.edges }
    ensures size { IfOk result (λ o. IfSome o (λ sums. length sums.items ≡ length known.now.tree.now.headers)) }
    ensures each { IfOk result (λ o. IfSome o (λ sums. (k : ℕ) → k < length known.now.tree.now.headers →
        number_in_place sums.items k ≡ body_taken known.now.graph.now known.now.tree.now (by_edge known.now.weights.now)
        known.now.worst.now.worst taken.now k)) }
{
    let _nodes = known.graph.node_count();
    let Some(costs) = edge_cycles(alloc, known)? else {
        return Ok(None);
    };
    let nodes = source_nodes(alloc, known.graph)?;
    let Some(by_node) = tally(alloc, known.graph.node_count(), &nodes, taken, &costs)? else {
        return Ok(None);
    };
    body_sums(alloc, known.tree, &by_node)
}

/// The cycles of functions and loops with all that they call and that lies within them, along a walk that takes the worst cycles and of which these are the
/// counts. None where a number isn't in range, which doesn't happen up to 2^48 worst cycles: that is tested, not proved.
pub fn whole_cycles(
    alloc: Global,
    known: &Known<'_>,
    counts: &WalkCounts,
) -> Result<Option<WholeCycles>, NoMemory>
    requires known { IsKnown known.now }
    requires taken { length counts.now.taken.items ≡ length known.now.graph.now.code.edges }
    requires calls { length counts.now.calls.items ≡ length known.now.graph.now.code.functions }
    ensures sizes { IfOk result (λ o. IfSome o (λ all. HasWholeSizes known.now.graph.now known.now.tree.now all)) }
    ensures whole { (worst : ℕ) → slice_get known.now.worst.now.worst 0 ≡ Some worst →
        AreWorstOf (graph_seen known.now.graph.now) (loops known.now.graph.now known.now.tree.now) (by_edge known.now.weights.now)
        known.now.worst.now.worst → (walk : IsWorstWalk (graph_seen known.now.graph.now) (loops known.now.graph.now known.now.tree.now)
        (by_edge known.now.weights.now) worst counts.now) → IfOk result (λ o. IfSome o
        (λ all. AreWholeCycles (graph_seen known.now.graph.now) (loops known.now.graph.now known.now.tree.now)
        (by_edge known.now.weights.now) walk.walks counts.now all)) }
{
    let _nodes = known.graph.node_count();
    let Some(functions) = function_sums(alloc, known.worst, &counts.calls)? else {
        return Ok(None);
    };
    let Some(loops) = loop_sums(alloc, known, &counts.taken)? else {
        return Ok(None);
    };
    Ok(Some(WholeCycles { functions, loops }))
}
