//! The counted loops, and why they can't be counted.

ghost use Rattle.std.specs.Prelude.{◌≡◌, ◌+◌, ◌<◌, ◌≤◌, ◌↔◌, ℕ, true, length, Some, None, IfOk, OnOk, Bool, slice_index};
ghost use Rattle.scale_base.specs.Answer.{AnswersBy};
ghost use Rattle.flow_graph.specs.FlowGraph.{IsFlowGraph};
ghost use Rattle.loop_forest.specs.Tree.{IsLoopTree};
ghost use Rattle.scale_sites.specs.Counters.{goes_on, counted_loops, IsUncountable, IsFirstUncountable, HasNone, AreCounters};

use flow_graph::CodeGraph;
use loop_forest::LoopTree;
use scale_base::{EdgeKind, NoMemory, Refusal, Stop};
use std::alloc::Global;
use std::marker::Model;

/// The most loops that can be counted: one for each shadow counter.
const MOST_COUNTERS: usize = 509;

/// The counted loops, ascending. The first takes the shadow counter in word 2, and so on.
#[derive(Drop)]
pub struct CounterList {
    items: Vec<usize>,
}

impl Model for CounterList {
    ghost use Rattle.std.specs.Prelude.{List, ℕ};

    ghost Value = { List ℕ };

    ghost view = { λ c. c.items.items };
}

impl CounterList {
    /// How many loops are counted.
    pub fn count(&self) -> usize
        ensures { result ≡ length self.now }
    {
        self.items.len()
    }

    /// The counted loop of number `k`.
    pub fn get(&self, k: usize) -> &usize
        requires { k < length self.now }
        ensures { result.now ≡ slice_index self.now k }
    {
        &self.items[k]
    }

    pub(crate) fn as_slice(&self) -> &[usize]
        ensures { result.now ≡ self.now }
    {
        &self.items
    }
}

/// Whether an edge goes on to the next instruction.
fn goes_on(kind: EdgeKind) -> bool
    ensures { result ≡ goes_on kind }
{
    matches!(kind, EdgeKind::Next | EdgeKind::CallNext)
}

/// The counted loop of which edge `e` is a back edge that goes on to the next instruction.
fn uncountable_at(graph: &CodeGraph, tree: &LoopTree, e: usize) -> Option<usize>
    requires tree { (extent : ℕ → ℕ → Bool) × IsLoopTree graph.now extent tree.now }
    requires edge { e < length graph.now.code.edges }
    ensures { (k : ℕ) → (result ≡ Some k) ↔ IsUncountable graph.now tree.now k e }
{
    if !goes_on(graph.edge(e).kind) {
        return None;
    }
    match tree.back_loop(e) {
        Some(l) => { if tree.counted(l) { Some(l) } else { None } }
        None => None,
    }
}

/// A loop and an edge.
#[derive(Clone, Copy, Drop)]
struct BackEdge {
    l: usize,
    e: usize,
}

/// The least counted loop with a back edge that goes on to the next instruction, and the least such edge of it.
fn first_uncountable(graph: &CodeGraph, tree: &LoopTree) -> Option<BackEdge>
    requires tree { (extent : ℕ → ℕ → Bool) × IsLoopTree graph.now extent tree.now }
    ensures some { (b : BackEdge) → result ≡ Some b → IsFirstUncountable graph.now tree.now b.l b.e }
    ensures none { result ≡ None → HasNone graph.now tree.now }
{
    let mut first: Option<BackEdge> = None;
    for e in 0..graph.edge_count() {
        if let Some(l) = uncountable_at(graph, tree, e) {
            first = lesser(first, BackEdge { l, e });
        }
    }
    first
}

/// The one with the lesser loop; the first of two with the same loop.
fn lesser(first: Option<BackEdge>, next: BackEdge) -> Option<BackEdge>
    ensures some { (b : BackEdge) → first ≡ Some b → (next.l < b.l → result ≡ Some next) × (b.l ≤ next.l → result ≡ Some b) }
    ensures none { first ≡ None → result ≡ Some next }
{
    match first {
        Some(b) => { if next.l < b.l { Some(next) } else { Some(b) } }
        None => Some(next),
    }
}

/// The counted loops.
fn counted_of(alloc: Global, tree: &LoopTree) -> Result<Vec<usize>, NoMemory>
    requires counted { length tree.now.counted ≡ length tree.now.headers }
    ensures counted { IfOk result (λ loops. loops.items ≡ counted_loops tree.now) }
    ensures few { IfOk result (λ loops. length loops.items ≤ 4096) }
{
    let mut loops = Vec::new(alloc);
    for l in 0..tree.loop_count() {
        if tree.counted(l) {
            loops.push(l)?;
        }
    }
    Ok(loops)
}

/// The number of loop `l` in refusals, from 1 on.
fn loop_number(tree: &LoopTree, l: usize) -> u32
    requires { l < length tree.now.headers }
    ensures { result ≡ l + 1 }
{
    let count = tree.loop_count();
    prove!(l < count);
    l as u32 + 1
}

/// The counted loops; or the refusal where one has a back edge that goes on to the next instruction, or else there are more than 509.
pub fn counters(alloc: Global, graph: &CodeGraph, tree: &LoopTree) -> Result<CounterList, Stop>
    requires tree { (extent : ℕ → ℕ → Bool) × IsLoopTree graph.now extent tree.now }
    ensures { AnswersBy (λ c. c) result (AreCounters graph.now tree.now) }
{
    if let Some(b) = first_uncountable(graph, tree) {
        let at = graph.edge(b.e).at;
        return Err(Stop::Refused(Refusal::Uncountable(loop_number(tree, b.l), at)));
    }
    let items = counted_of(alloc, tree)?;
    if items.len() > MOST_COUNTERS {
        return Err(Stop::Refused(Refusal::TooManyCounters(items.len() as u32)));
    }
    Ok(CounterList { items })
}
