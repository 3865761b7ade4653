//! Which loops may be worth counting: each of their turns takes long, so that counting it costs little of that.

use flow_graph::CodeGraph;
use loop_forest::LoopTree;
use scale_base::{EdgeKind, NoMemory};
use std::alloc::Global;

/// So many loops are counted at most, since there are so many shadow counters.
const MOST_COUNTED: usize = 509;

/// What the edges from the body of a loop tell: whether one calls, and whether one of them goes back that can't be patched.
#[derive(Clone, Copy)]
struct Ways {
    calls: bool,
    goes_on: bool,
}

// Whether an edge leads to the header of loop k.
fn leads_back(graph: &CodeGraph, tree: &LoopTree, k: usize, e: usize) -> bool {
    if k >= tree.loop_count() || e >= graph.edge_count() {
        return false;
    }
    graph.target(e) == Some(tree.header(k))
}

impl Ways {
    // Adds an edge from the body of loop k.
    fn add(self, graph: &CodeGraph, tree: &LoopTree, k: usize, e: usize) -> Ways {
        if e >= graph.edge_count() {
            return self;
        }
        let on = matches!(graph.edge(e).kind, EdgeKind::Next | EdgeKind::CallNext);
        Ways {
            calls: self.calls || graph.callee(e).is_some(),
            goes_on: self.goes_on || (on && leads_back(graph, tree, k, e)),
        }
    }

    // Adds the edges of a node of loop k.
    fn add_node(self, graph: &CodeGraph, tree: &LoopTree, k: usize, node: usize) -> Ways {
        if node >= graph.node_count() {
            return self;
        }
        let (from, to) = graph.edges_of(node);
        let mut ways = self;
        for e in from..to {
            ways = ways.add(graph, tree, k, e);
        }
        ways
    }
}

// The edges from the body of loop k.
fn ways_of(graph: &CodeGraph, tree: &LoopTree, k: usize) -> Ways {
    let mut ways = Ways {
        calls: false,
        goes_on: false,
    };
    if k >= tree.loop_count() {
        return ways;
    }
    for node in tree.body(k) {
        ways = ways.add_node(graph, tree, k, *node);
    }
    ways
}

// Puts the flag of the least loop round loop j up.
fn mark_outer(flags: &mut [bool], tree: &LoopTree, j: usize) {
    if j >= tree.loop_count() {
        return;
    }
    if let Some(outer) = tree.parent(j) {
        if let Some(flag) = flags.get_mut(outer) {
            *flag = true;
        }
    }
}

// By loop whether another one is within it.
fn outer_loops(alloc: Global, tree: &LoopTree) -> Result<Vec<bool>, NoMemory> {
    let mut flags = vec![in alloc; false; tree.loop_count()]?;
    for j in 0..tree.loop_count() {
        mark_outer(&mut flags, tree, j);
    }
    Ok(flags)
}

/// By loop whether counting it costs little of what its turns take: another loop is within it, or a call. Of those that can be counted, whose back edges are
/// branches that are taken and jumps, the first 509.
pub fn dear_loops(
    alloc: Global,
    graph: &CodeGraph,
    tree: &LoopTree,
) -> Result<Vec<bool>, NoMemory> {
    let outer = outer_loops(alloc, tree)?;
    let mut flags = Vec::new(alloc);
    let mut counted: usize = 0;
    for (k, holds_loop) in outer.iter().enumerate() {
        let ways = ways_of(graph, tree, k);
        let counts = !ways.goes_on && (ways.calls || *holds_loop) && counted < MOST_COUNTED;
        if counts {
            counted = counted.saturating_add(1);
        }
        flags.push(counts)?;
    }
    Ok(flags)
}
