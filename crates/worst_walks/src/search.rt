//! Looks for the parts of a walk that takes the worst cycles. Whether they are so is tested behind it.
//!
//! Along such a walk no edge has slack. So a path from an entry is looked for over plain edges without slack, up to an edge behind which
//! nothing is left, and an iteration over such edges within the loop, up to a back edge without slack.

ghost use Rattle.std.specs.Prelude.{◌≡◌, ◌<◌, length, IfOk};
ghost use Rattle.worst_walks.specs.Known.{IsKnown};

use crate::parts::Parts;
use flow_graph::{CodeGraph, Weights};
use loop_forest::LoopTree;
use scale_base::NoMemory;
use std::alloc::Global;
use worst_cycles::WorstNumbers;

/// A program whose worst cycles are known.
#[derive(Clone, Copy)]
pub struct Known<'a> {
    pub graph: &'a CodeGraph,
    pub tree: &'a LoopTree,
    pub weights: &'a Weights,
    pub worst: &'a WorstNumbers,
}

/// What is looked for.
#[derive(Clone, Copy)]
enum Sought {
    Path,
    Turn(usize),
}

/// Where an edge leads a search.
#[derive(Clone, Copy)]
enum Way {
    /// What is sought ends with the edge.
    Ends,
    /// It goes on at a node.
    Leads(usize),
    /// The edge is no part of it.
    Closed,
}

/// A search: for what, from which node on, and the mark that it leaves at each node that it comes to.
#[derive(Clone, Copy)]
struct WalkSearch {
    sought: Sought,
    start: usize,
    mark: usize,
}

/// A node of a path, by those of its edges that are still to be tried.
#[derive(Clone, Copy, Drop)]
struct Step {
    next: usize,
    end: usize,
}

/// A search takes no more steps: each edge of a graph is tried once, and each node left once.
const MOST_STEPS: usize = 1 << 20;

/// The cycles of an edge that leads to no node, with those of the function that it calls.
fn end_cycles(known: &Known<'_>, e: usize) -> u64
    requires known { IsKnown known.now }
    requires edge { e < length known.now.graph.now.code.edges }
{
    let weight = u64::from(*known.weights.get(e));
    match known.graph.callee(e) {
        Some(f) => {
            if f < known.graph.function_count() {
                weight.saturating_add(known.worst.function(f))
            } else {
                weight
            }
        }
        None => weight,
    }
}

/// Where an edge leads a path.
fn path_way(known: &Known<'_>, e: usize) -> Way
    requires known { IsKnown known.now }
    requires edge { e < length known.now.graph.now.code.edges }
{
    if known.tree.back_loop(e).is_some() {
        return Way::Closed;
    }
    match known.graph.target(e) {
        Some(k) => {
            if known.worst.slack(e) != 0 {
                Way::Closed
            } else if known.worst.left(k) == 0 {
                Way::Ends
            } else {
                Way::Leads(k)
            }
        }
        None => {
            if known.worst.left(known.graph.source(e)) == end_cycles(known, e) {
                Way::Ends
            } else {
                Way::Closed
            }
        }
    }
}

/// Where an edge leads an iteration of loop `l`.
fn turn_way(known: &Known<'_>, l: usize, e: usize) -> Way
    requires known { IsKnown known.now }
    requires edge { e < length known.now.graph.now.code.edges }
{
    let Some(k) = known.graph.target(e) else {
        return Way::Closed;
    };
    if known.worst.slack(e) != 0 || l >= known.tree.loop_count() {
        return Way::Closed;
    }
    match known.tree.back_loop(e) {
        Some(b) => { if b == l { Way::Ends } else { Way::Closed } }
        None => {
            if known.tree.in_body(l, k) {
                Way::Leads(k)
            } else {
                Way::Closed
            }
        }
    }
}

/// Where an edge leads a search.
fn way_on(known: &Known<'_>, sought: Sought, e: usize) -> Way
    requires known { IsKnown known.now }
    requires edge { e < length known.now.graph.now.code.edges }
{
    match sought {
        Sought::Path => path_way(known, e),
        Sought::Turn(l) => turn_way(known, l, e),
    }
}

/// The edges of a node, none of which is tried yet.
fn step_at(graph: &CodeGraph, k: usize) -> Step {
    if k >= graph.node_count() {
        return Step { next: 0, end: 0 };
    }
    let (next, end) = graph.edges_of(k);
    Step { next, end }
}

/// Marks a node as one that a search has come to, and tells whether it hadn't before.
fn comes_to(seen: &mut [usize], k: usize, mark: usize) -> bool {
    if k >= seen.len() || seen[k] == mark {
        return false;
    }
    seen[k] = mark;
    true
}

/// Looks for a path or an iteration from a node: the edges of the first that is found, or none.
fn find_edges(
    alloc: Global,
    known: &Known<'_>,
    search: WalkSearch,
    seen: &mut [usize],
) -> Result<Vec<usize>, NoMemory>
    requires { IsKnown known.now }
{
    let mut edges: Vec<usize> = Vec::new(alloc);
    let mut steps: Vec<Step> = Vec::new(alloc);
    steps.push(step_at(known.graph, search.start))?;
    for _ in 0..MOST_STEPS {
        let Some(step) = steps.pop() else {
            break;
        };
        let e = step.next;
        if e >= step.end || e >= known.graph.edge_count() {
            let _left = edges.pop();
            continue;
        }
        steps.push(Step {
            next: e + 1,
            end: step.end,
        })?;
        match way_on(known, search.sought, e) {
            Way::Ends => {
                edges.push(e)?;
                break;
            }
            Way::Leads(k) => {
                if comes_to(seen, k, search.mark) {
                    edges.push(e)?;
                    steps.push(step_at(known.graph, k))?;
                }
            }
            Way::Closed => {}
        }
    }
    Ok(edges)
}

/// A path from the entry of function `f`: none where nothing is left there but the turns of a loop.
fn find_path(
    alloc: Global,
    known: &Known<'_>,
    f: usize,
    seen: &mut [usize],
) -> Result<Vec<usize>, NoMemory>
    requires known { IsKnown known.now }
    requires function { f < length known.now.graph.now.code.functions }
{
    let entry = known.graph.entry_node(f);
    if known.worst.left(entry) == 0 {
        return Ok(Vec::new(alloc));
    }
    let search = WalkSearch {
        sought: Sought::Path,
        start: entry,
        mark: f.saturating_add(1),
    };
    find_edges(alloc, known, search, seen)
}

/// Looks for a path of each function.
fn find_paths(
    alloc: Global,
    known: &Known<'_>,
    seen: &mut [usize],
) -> Result<Vec<Vec<usize>>, NoMemory>
    requires { IsKnown known.now }
    ensures { IfOk result (λ paths. length paths.items ≡ length known.now.graph.now.code.functions) }
{
    let mut paths = Vec::new(alloc);
    for f in 0..known.graph.function_count() {
        paths.push(find_path(alloc, known, f, seen)?)?;
    }
    Ok(paths)
}

/// Looks for an iteration of each loop.
fn find_turns(
    alloc: Global,
    known: &Known<'_>,
    seen: &mut [usize],
) -> Result<Vec<Vec<usize>>, NoMemory>
    requires { IsKnown known.now }
    ensures { IfOk result (λ turns. length turns.items ≡ length known.now.tree.now.headers) }
{
    let mut turns = Vec::new(alloc);
    for l in 0..known.tree.loop_count() {
        let search = WalkSearch {
            sought: Sought::Turn(l),
            start: known.tree.header(l),
            mark: l + 1,
        };
        turns.push(find_edges(alloc, known, search, seen)?)?;
    }
    Ok(turns)
}

/// Looks for the parts of a walk that takes the worst cycles.
pub fn find_parts(alloc: Global, known: &Known<'_>) -> Result<Parts, NoMemory>
    requires { IsKnown known.now }
    ensures paths { IfOk result (λ parts. length parts.paths.items ≡ length known.now.graph.now.code.functions) }
    ensures turns { IfOk result (λ parts. length parts.turns.items ≡ length known.now.tree.now.headers) }
{
    let count = known.graph.node_count();
    let mut seen = vec![in alloc; 0; count]?;
    let paths = find_paths(alloc, known, &mut seen)?;
    let mut seen_by_turns = vec![in alloc; 0; count]?;
    let turns = find_turns(alloc, known, &mut seen_by_turns)?;
    Ok(Parts { paths, turns })
}
