//! How many calls may be open in what a function calls.

ghost use Rattle.std.specs.Prelude.{◌<◌, length};

use flow_graph::CodeGraph;
use scale_base::NoMemory;
use std::alloc::Global;

// The calls of a program by the numbers of their edges: by function its last one, and by edge the one before it of the same function.
#[derive(Drop)]
struct Calls {
    last: Vec<Option<usize>>,
    before: Vec<Option<usize>>,
}

impl Calls {
    fn of(alloc: Global, graph: &CodeGraph) -> Result<Calls, NoMemory> {
        let mut calls = Calls {
            last: vec![in alloc; None; graph.function_count()]?,
            before: vec![in alloc; None; graph.edge_count()]?,
        };
        for e in 0..graph.edge_count() {
            if graph.callee(e).is_some() {
                calls.add(e, graph.owner(graph.source(e)));
            }
        }
        Ok(calls)
    }

    // Adds an edge of a function.
    fn add(&mut self, e: usize, function: usize) {
        if e < self.before.len() && function < self.last.len() {
            self.before[e] = self.last[function];
            self.last[function] = Some(e);
        }
    }

    fn last_of(&self, function: usize) -> Option<usize> {
        self.last.get(function).copied().flatten()
    }

    fn before(&self, e: usize) -> Option<usize> {
        self.before.get(e).copied().flatten()
    }
}

// How high a function is that calls what an edge calls.
fn height_over(graph: &CodeGraph, heights: &[u32], e: usize) -> u32 {
    if e >= graph.edge_count() {
        return 0;
    }
    match graph.callee(e) {
        Some(f) => heights.get(f).copied().unwrap_or(0).saturating_add(1),
        None => 0,
    }
}

// The height of a function, by those of what it calls.
fn height_of(graph: &CodeGraph, calls: &Calls, heights: &[u32], function: usize) -> u32 {
    let mut height = 0;
    let mut next = calls.last_of(function);
    for _ in 0..graph.edge_count() {
        let Some(e) = next else {
            break;
        };
        height = height_over(graph, heights, e).max(height);
        next = calls.before(e);
    }
    height
}

/// By function, how many calls may be open in what it calls: the length of the longest chain of calls. Where functions call one another in a circle, it is
/// some number.
pub fn heights_of(alloc: Global, graph: &CodeGraph) -> Result<Vec<u32>, NoMemory> {
    let calls = Calls::of(alloc, graph)?;
    let mut heights = vec![in alloc; 0; graph.function_count()]?;
    for f in graph.call_order() {
        if *f < heights.len() {
            heights[*f] = height_of(graph, &calls, &heights, *f);
        }
    }
    Ok(heights)
}
