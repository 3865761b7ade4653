//! By edge and by function, what they are counted as.

ghost use Rattle.std.specs.Prelude.{◌≡◌, ℕ, ◌<◌, ◌↔◌, Bool, true, length, IfOk, Some, None, Option, slice_get, nat_eq};
ghost use Rattle.cost_theory.specs.Graph.{enters, only};
ghost use Rattle.graph_algorithms.specs.Arcs.{number_in_place};
ghost use Rattle.flow_graph.specs.FlowGraph.{graph as graph_seen};
ghost use Rattle.loop_forest.specs.Tree.{loops, IsLoopTree, IsInnermost};
ghost use Rattle.worst_walks.specs.Tallies.{key_at, outside_of};
ghost use Rattle.worst_walks.specs.Fitted.{AreOnes};

use flow_graph::CodeGraph;
use loop_forest::LoopTree;
use scale_base::NoMemory;
use std::alloc::Global;

/// By edge, the function that it calls.
pub fn called_functions(alloc: Global, graph: &CodeGraph) -> Result<Vec<Option<usize>>, NoMemory>
    ensures size { IfOk result (λ keys. length keys.items ≡ length graph.now.code.edges) }
    ensures each { IfOk result (λ keys. (e : ℕ) → e < length graph.now.code.edges → key_at keys.items e ≡ (graph_seen graph.now).callee e) }
{
    let mut keys = Vec::new(alloc);
    for e in 0..graph.edge_count() {
        keys.push(graph.callee(e))?;
    }
    Ok(keys)
}

/// The loop that edge `e` enters from outside.
fn entered_loop(graph: &CodeGraph, tree: &LoopTree, e: usize) -> Option<usize>
    requires tree { (extent : ℕ → ℕ → Bool) × IsLoopTree graph.now extent tree.now }
    requires edge { e < length graph.now.code.edges }
    ensures { (k : ℕ) → (result ≡ Some k) ↔ ((k < length tree.now.headers) × (enters (loops graph.now tree.now) k
        ((graph_seen graph.now).source e) ((graph_seen graph.now).target e) ≡ true)) }
{
    let _nodes = graph.node_count();
    let Some(to) = graph.target(e) else {
        return None;
    };
    let Some(l) = tree.innermost(to) else {
        return None;
    };
    if tree.header(l) != to || tree.is_back_edge(l, e) {
        return None;
    }
    Some(l)
}

/// By edge, the loop that it enters from outside.
pub fn entered_loops(
    alloc: Global,
    graph: &CodeGraph,
    tree: &LoopTree,
) -> Result<Vec<Option<usize>>, NoMemory>
    requires tree { (extent : ℕ → ℕ → Bool) × IsLoopTree graph.now extent tree.now }
    ensures size { IfOk result (λ keys. length keys.items ≡ length graph.now.code.edges) }
    ensures each { IfOk result (λ keys. (e : ℕ) → e < length graph.now.code.edges → (k : ℕ) →
        (key_at keys.items e ≡ Some k) ↔ ((k < length tree.now.headers) × (enters (loops graph.now tree.now) k
        ((graph_seen graph.now).source e) ((graph_seen graph.now).target e) ≡ true))) }
{
    let mut keys = Vec::new(alloc);
    for e in 0..graph.edge_count() {
        keys.push(entered_loop(graph, tree, e))?;
    }
    Ok(keys)
}

/// By function, the loop in which it begins.
pub fn begun_loops(
    alloc: Global,
    graph: &CodeGraph,
    tree: &LoopTree,
) -> Result<Vec<Option<usize>>, NoMemory>
    requires tree { (extent : ℕ → ℕ → Bool) × IsLoopTree graph.now extent tree.now }
    ensures size { IfOk result (λ keys. length keys.items ≡ length graph.now.code.functions) }
    ensures each { IfOk result (λ keys. (f : ℕ) → f < length graph.now.code.functions →
        IsInnermost (loops graph.now tree.now) ((graph_seen graph.now).entry f) (key_at keys.items f)) }
{
    let mut keys = Vec::new(alloc);
    for f in 0..graph.function_count() {
        keys.push(tree.innermost(graph.entry_node(f)))?;
    }
    Ok(keys)
}

/// By edge, the least loop round the node at which it starts.
pub fn innermost_loops(
    alloc: Global,
    graph: &CodeGraph,
    tree: &LoopTree,
) -> Result<Vec<Option<usize>>, NoMemory>
    requires tree { (extent : ℕ → ℕ → Bool) × IsLoopTree graph.now extent tree.now }
    ensures size { IfOk result (λ keys. length keys.items ≡ length graph.now.code.edges) }
    ensures each { IfOk result (λ keys. (e : ℕ) → e < length graph.now.code.edges →
        IsInnermost (loops graph.now tree.now) ((graph_seen graph.now).source e) (key_at keys.items e)) }
{
    let mut keys = Vec::new(alloc);
    for e in 0..graph.edge_count() {
        keys.push(tree.innermost(graph.source(e)))?;
    }
    Ok(keys)
}

/// By edge, the function of the node at which it starts, where no loop is round that node.
pub fn outside_functions(
    alloc: Global,
    graph: &CodeGraph,
    inner: &[Option<usize>],
) -> Result<Vec<Option<usize>>, NoMemory>
    requires { length inner.now ≡ length graph.now.code.edges }
    ensures size { IfOk result (λ keys. length keys.items ≡ length graph.now.code.edges) }
    ensures each { IfOk result (λ keys. (e : ℕ) → e < length graph.now.code.edges →
        key_at keys.items e ≡ outside_of ((graph_seen graph.now).owner ((graph_seen graph.now).source e)) (key_at inner.now e)) }
{
    let mut keys = Vec::new(alloc);
    for e in 0..graph.edge_count() {
        keys.push(outside_function(graph, inner, e))?;
    }
    Ok(keys)
}

/// The same of one edge.
fn outside_function(graph: &CodeGraph, inner: &[Option<usize>], e: usize) -> Option<usize>
    requires size { length inner.now ≡ length graph.now.code.edges }
    requires edge { e < length graph.now.code.edges }
    ensures { result ≡ outside_of ((graph_seen graph.now).owner ((graph_seen graph.now).source e)) (key_at inner.now e) }
{
    match inner[e] {
        Some(_) => None,
        None => Some(graph.owner(graph.source(e))),
    }
}

/// By function, how often it is called but over edges: the first once.
pub fn first_calls(alloc: Global, count: usize) -> Result<Vec<u64>, NoMemory>
    ensures size { IfOk result (λ calls. length calls.items ≡ count) }
    ensures each { IfOk result (λ calls. (f : ℕ) → f < count → number_in_place calls.items f ≡ only (nat_eq f 0) 1) }
{
    let mut calls = Vec::new(alloc);
    for f in 0..count {
        calls.push(if f == 0 { 1 } else { 0 })?;
    }
    Ok(calls)
}

/// A table of ones.
pub fn ones(alloc: Global, count: usize) -> Result<Vec<u64>, NoMemory>
    ensures { IfOk result (λ ones. AreOnes count ones.items) }
{
    Ok(vec![in alloc; 1; count]?)
}

/// A table of zeros.
pub fn nothing_taken(alloc: Global, count: usize) -> Result<Vec<u64>, NoMemory>
    ensures size { IfOk result (λ taken. length taken.items ≡ count) }
    ensures each { IfOk result (λ taken. (e : ℕ) → e < count → number_in_place taken.items e ≡ 0) }
{
    Ok(vec![in alloc; 0; count]?)
}
