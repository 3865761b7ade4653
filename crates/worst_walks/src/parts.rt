//! What a walk is put together of, and whether it is so.

ghost use Rattle.std.specs.Prelude.{◌≡◌, ℕ, ◌<◌, Bool, true, length, Some};
ghost use Rattle.cost_theory.specs.Graph.{IsPlain, IsPlainPath, IsClosing, is_back, is_round};
ghost use Rattle.cost_theory.specs.Lists.{body_of, is_among};
ghost use Rattle.graph_algorithms.specs.Nesting.{bodies_of};
ghost use Rattle.flow_graph.specs.FlowGraph.{graph as graph_seen};
ghost use Rattle.loop_forest.specs.Tree.{loops, IsLoopTree};
ghost use Rattle.worst_walks.specs.Tallies.{place_of};

use flow_graph::CodeGraph;
use loop_forest::LoopTree;

/// By function a path from its entry over plain edges, and by loop one iteration from its header: lists of edges.
#[derive(Drop)]
pub struct Parts {
    pub paths: Vec<Vec<usize>>,
    pub turns: Vec<Vec<usize>>,
}

/// Whether edge `e` starts at a node and is no back edge of a loop.
fn is_step(graph: &CodeGraph, tree: &LoopTree, e: usize, at: Option<usize>) -> bool
    requires { (extent : ℕ → ℕ → Bool) × IsLoopTree graph.now extent tree.now }
    ensures edge { result ≡ true → e < length graph.now.code.edges }
    ensures starts { result ≡ true → place_of graph.now at ≡ Some ((graph_seen graph.now).source e) }
    ensures plain { result ≡ true → IsPlain (graph_seen graph.now) (loops graph.now tree.now) e }
{
    starts_at(graph, e, at) && tree.back_loop(e).is_none()
}

/// Whether `e` is an edge that starts at a node.
fn starts_at(graph: &CodeGraph, e: usize, at: Option<usize>) -> bool
    ensures edge { result ≡ true → e < length graph.now.code.edges }
    ensures starts { result ≡ true → place_of graph.now at ≡ Some ((graph_seen graph.now).source e) }
{
    e < graph.edge_count() && at == Some(graph.source(e))
}

/// Whether edges are a path over plain edges from a node.
fn is_path(graph: &CodeGraph, tree: &LoopTree, start: usize, path: &[usize]) -> bool
    requires { (extent : ℕ → ℕ → Bool) × IsLoopTree graph.now extent tree.now }
    ensures { result ≡ true → IsPlainPath (graph_seen graph.now) (loops graph.now tree.now) (place_of graph.now (Some start)) path.now }
{
    let mut at = Some(start);
    for e in path {
        if !is_step(graph, tree, *e, at) {
            return false;
        }
        at = graph.target(*e);
    }
    true
}

/// Whether a node is in the body of loop `l`.
fn is_inside(tree: &LoopTree, l: usize, at: Option<usize>) -> bool
    requires { l < length tree.now.headers }
    ensures { result ≡ true → (k : ℕ) × (at ≡ Some k) × (is_among k (body_of tree.now.bodies l) ≡ true) }
{
    match at {
        Some(k) => tree.in_body(l, k),
        None => false,
    }
}

/// Whether an iteration of loop `l` goes on over edge `e`.
fn is_within(graph: &CodeGraph, tree: &LoopTree, l: usize, e: usize, at: Option<usize>) -> bool
    requires tree { (extent : ℕ → ℕ → Bool) × IsLoopTree graph.now extent tree.now }
    requires within { l < length tree.now.headers }
    ensures edge { result ≡ true → e < length graph.now.code.edges }
    ensures starts { result ≡ true → place_of graph.now at ≡ Some ((graph_seen graph.now).source e) }
    ensures plain { result ≡ true → IsPlain (graph_seen graph.now) (loops graph.now tree.now) e }
    ensures stays { result ≡ true → is_round (loops graph.now tree.now) l ((graph_seen graph.now).target e) ≡ true }
{
    is_step(graph, tree, e, at) && is_inside(tree, l, graph.target(e))
}

/// Whether an iteration of loop `l` ends over edge `e`.
fn is_last(graph: &CodeGraph, tree: &LoopTree, l: usize, e: usize, at: Option<usize>) -> bool
    requires tree { (extent : ℕ → ℕ → Bool) × IsLoopTree graph.now extent tree.now }
    requires within { l < length tree.now.headers }
    ensures edge { result ≡ true → e < length graph.now.code.edges }
    ensures starts { result ≡ true → place_of graph.now at ≡ Some ((graph_seen graph.now).source e) }
    ensures back { result ≡ true → is_back (graph_seen graph.now) (loops graph.now tree.now) l e ≡ true }
{
    starts_at(graph, e, at) && tree.is_back_edge(l, e)
}

/// Whether edges are one iteration of loop `l`.
fn is_turn(graph: &CodeGraph, tree: &LoopTree, l: usize, turn: &[usize]) -> bool
    requires tree { (extent : ℕ → ℕ → Bool) × IsLoopTree graph.now extent tree.now }
    requires within { l < length tree.now.headers }
    ensures { result ≡ true → IsClosing (graph_seen graph.now) (loops graph.now tree.now) l (Some ((loops graph.now tree.now).header l))
        turn.now }
{
    let mut at = Some(tree.header(l));
    for j in 0..turn.len() {
        let e = turn[j];
        if is_last(graph, tree, l, e, at) {
            return j + 1 == turn.len();
        }
        if !is_within(graph, tree, l, e, at) {
            return false;
        }
        at = graph.target(e);
    }
    false
}

/// Whether there is a path from the entry of each function.
pub fn are_paths(graph: &CodeGraph, tree: &LoopTree, paths: &[Vec<usize>]) -> bool
    requires tree { (extent : ℕ → ℕ → Bool) × IsLoopTree graph.now extent tree.now }
    requires size { length paths.now ≡ length graph.now.code.functions }
    ensures { result ≡ true → (f : ℕ) → f < length graph.now.code.functions →
        IsPlainPath (graph_seen graph.now) (loops graph.now tree.now) (Some ((graph_seen graph.now).entry f))
        (body_of (bodies_of paths.now) f) }
{
    for f in 0..paths.len() {
        if !is_path(graph, tree, graph.entry_node(f), &paths[f]) {
            return false;
        }
    }
    true
}

/// Whether there is an iteration of each loop.
pub fn are_turns(graph: &CodeGraph, tree: &LoopTree, turns: &[Vec<usize>]) -> bool
    requires tree { (extent : ℕ → ℕ → Bool) × IsLoopTree graph.now extent tree.now }
    requires size { length turns.now ≡ length tree.now.headers }
    ensures { result ≡ true → (k : ℕ) → k < length tree.now.headers → IsClosing (graph_seen graph.now) (loops graph.now tree.now) k
        (Some ((loops graph.now tree.now).header k)) (body_of (bodies_of turns.now) k) }
{
    for l in 0..turns.len() {
        if !is_turn(graph, tree, l, &turns[l]) {
            return false;
        }
    }
    true
}
