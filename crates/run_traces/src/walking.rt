//! Random walks of a program's graph that keep the bounds of its loops and its return addresses: runs that may be, where inputs show too few. Some choose
//! anew at each step; others have habits, as a run has on an input that is all of one kind.

use crate::numbers::{Numbers, TracedEdge};
use crate::tracing::{EdgeTrace, may_switch};
use flow_graph::CodeGraph;
use loop_forest::LoopTree;
use scale_base::{EdgeKind, NoMemory};
use std::alloc::Global;

/// How many walks there are that choose anew at each step.
pub const WALKS: usize = 11;

/// How many walks there are with habits.
pub const HABITS: usize = 32;

/// How often of 100 times a walk with habits keeps them at a branch.
const KEEPS: u64 = 92;

/// How many steps a walk has at most.
const MOST_STEPS: usize = 120_000;

/// How many calls of a walk are open at most.
const MOST_CALLS: usize = 4096;

/// How often of 100 times a walk takes the dearer edge of a branch. Else it takes either.
const BIASES: [u64; 11] = [100, 97, 97, 90, 90, 80, 80, 60, 60, 50, 50];

/// Numbers that look random, the same for the same seed.
#[derive(Clone, Copy)]
struct Dice {
    state: u64,
}

impl Dice {
    /// A linear congruential generator (Knuth, MMIX), from a seed.
    fn new(seed: u64) -> Dice {
        let mut dice = Dice {
            state: seed.wrapping_mul(0x9E37_79B9_7F4A_7C15),
        };
        for _ in 0..4 {
            dice.throw();
        }
        dice
    }

    /// The next number, below 100.
    fn throw(&mut self) -> u64 {
        self.state = self
            .state
            .wrapping_mul(6364136223846793005)
            .wrapping_add(1442695040888963407);
        (self.state >> 33) % 100
    }
}

/// Where the numbers of loops begin among those by which habits are drawn, behind all edges.
const LOOPS: usize = 0x1000_0000;

/// A number below 100, by which a walk with habits always does the same at an edge or in a loop.
fn drawn(walk: u64, place: usize) -> u64 {
    let seed = walk.wrapping_shl(32).wrapping_add(place as u64);
    let mut dice = Dice::new(seed);
    dice.throw()
}

/// A part of a loop's bound, by a number below 100: none of it, a sixteenth, an eighth, a quarter, half of it, or all.
fn part_of(bound: u32, number: u64) -> u32 {
    match number % 6 {
        0 => 0,
        1 => bound / 16,
        2 => bound / 8,
        3 => bound / 4,
        4 => bound / 2,
        _ => bound,
    }
}

/// What walks have to know of loops: by node the loop whose header it is, and the one with the least body round it.
#[derive(Drop)]
struct LoopPlaces {
    headers: Vec<Option<usize>>,
    innermost: Vec<Option<usize>>,
}

/// A loop at a node, if there is one.
fn loop_at(loops: &[Option<usize>], k: usize) -> Option<usize> {
    if k < loops.len() { loops[k] } else { None }
}

/// How many nodes the body of a loop has.
fn body_len(tree: &LoopTree, l: Option<usize>) -> usize {
    match l {
        Some(l) if l < tree.loop_count() => tree.body(l).len(),
        _ => usize::MAX,
    }
}

/// Notes that a loop is round its nodes, where no other with a smaller body is.
fn put_round(tree: &LoopTree, innermost: &mut [Option<usize>], l: usize) {
    if l < tree.loop_count() {
        let len = tree.body(l).len();
        for k in tree.body(l) {
            if *k < innermost.len() && len < body_len(tree, innermost[*k]) {
                innermost[*k] = Some(l);
            }
        }
    }
}

impl LoopPlaces {
    fn new(alloc: Global, graph: &CodeGraph, tree: &LoopTree) -> Result<LoopPlaces, NoMemory> {
        let mut headers: Vec<Option<usize>> = vec![in alloc; None; graph.node_count()]?;
        let mut innermost: Vec<Option<usize>> = vec![in alloc; None; graph.node_count()]?;
        for l in 0..tree.loop_count() {
            let h = tree.header(l);
            if h < headers.len() {
                headers[h] = Some(l);
            }
            put_round(tree, &mut innermost, l);
        }
        Ok(LoopPlaces { headers, innermost })
    }
}

/// A program on which walks go.
#[derive(Drop)]
pub struct WalkPlan<'a> {
    graph: &'a CodeGraph,
    tree: &'a LoopTree,
    numbers: &'a Numbers,
    places: LoopPlaces,
}

/// The edge from which a walk goes on behind a call, and the loops' counts of a walk.
#[derive(Drop)]
struct Walker {
    node: usize,
    /// By loop, the back edges since it was last entered.
    counts: Vec<u32>,
    /// The edges of the open calls.
    calls: Vec<usize>,
    dice: Dice,
    bias: u64,
    /// The number of a walk with habits.
    habit: Option<u64>,
}

/// How a step of a walk ends.
#[derive(Clone, Copy)]
enum Moved {
    On,
    Exited,
    Stuck,
}

/// How well an edge keeps the notes of the loop round it.
#[derive(Clone, Copy, PartialEq, Eq)]
enum Fit {
    Broken,
    Poor,
    Good,
}

impl<'a> WalkPlan<'a> {
    pub fn new(
        alloc: Global,
        graph: &'a CodeGraph,
        tree: &'a LoopTree,
        numbers: &'a Numbers,
    ) -> Result<WalkPlan<'a>, NoMemory> {
        let places = LoopPlaces::new(alloc, graph, tree)?;
        Ok(WalkPlan {
            graph,
            tree,
            numbers,
            places,
        })
    }

    /// The numbers of edge `e`.
    fn edge(&self, e: usize) -> Option<TracedEdge> {
        if e < self.numbers.edges.len() {
            Some(self.numbers.edges[e])
        } else {
            None
        }
    }

    /// Whether edge `e` leads out of the body of a loop.
    fn leaves(&self, e: usize, l: usize) -> bool {
        if e >= self.graph.edge_count() || l >= self.tree.loop_count() {
            return false;
        }
        match self.graph.target(e) {
            Some(v) => !self.tree.in_body(l, v),
            None => false,
        }
    }
}

impl Walker {
    /// At the entry of the program, with the bias of a walk.
    fn new(alloc: Global, plan: &WalkPlan<'_>, number: usize) -> Result<Walker, NoMemory> {
        let _some = plan.graph.function_count();
        let bias = if number < BIASES.len() {
            BIASES[number]
        } else {
            0
        };
        Ok(Walker {
            node: plan.graph.entry_node(0),
            counts: vec![in alloc; 0; plan.tree.loop_count()]?,
            calls: Vec::with_capacity(alloc, MOST_CALLS)?,
            dice: Dice::new((number as u64).wrapping_add(1)),
            bias,
            habit: if number < WALKS {
                None
            } else {
                Some(number as u64)
            },
        })
    }

    /// How many turns the walk takes in a loop at least and at most where there is a choice: by habit one of the loop's own, a part of the bound.
    fn turns(&self, tree: &LoopTree, l: usize) -> (u32, u32) {
        if l >= tree.loop_count() {
            return (0, 0);
        }
        let least = tree.least_trips(l);
        let bound = tree.bound(l);
        match self.habit {
            Some(number) => {
                let turns = part_of(bound, drawn(number, LOOPS.wrapping_add(l)));
                let kept = turns.max(least).min(bound);
                (kept, kept)
            }
            None => (least, bound),
        }
    }

    /// How many back edges a loop has taken since it was last entered.
    fn count(&self, l: usize) -> u32 {
        if l < self.counts.len() {
            self.counts[l]
        } else {
            0
        }
    }

    /// Whether edge `e` may be taken at node `k`, by the counts.
    fn fit(&self, plan: &WalkPlan<'_>, k: usize, e: usize) -> Fit {
        let tree = plan.tree;
        if let Some(l) = back_of(plan, e) {
            if l < tree.loop_count() && self.count(l) >= tree.bound(l) {
                return Fit::Broken;
            }
        }
        match loop_at(&plan.places.innermost, k) {
            Some(l) if l < tree.loop_count() => {
                let leaves = plan.leaves(e, l);
                let (least, most) = self.turns(tree, l);
                let full = self.count(l) >= most;
                let early = self.count(l) < least;
                if (leaves && early) || (full && !leaves) {
                    Fit::Poor
                } else {
                    Fit::Good
                }
            }
            _ => Fit::Good,
        }
    }

    /// One of two edges of a branch that are as good, by habit or by the dice.
    fn cast(&mut self, plan: &WalkPlan<'_>, one: usize, other: usize) -> usize {
        if let Some(number) = self.habit {
            let usual = drawn(number, one) < 50;
            let keeps = self.dice.throw() < KEEPS;
            return if usual == keeps { one } else { other };
        }
        if self.dice.throw() < self.bias {
            if slack_of(plan, other) < slack_of(plan, one) {
                other
            } else {
                one
            }
        } else if self.dice.throw() < 50 {
            one
        } else {
            other
        }
    }

    /// The edge over which the walk leaves node `k`, of a branch one of two.
    fn choose(&mut self, plan: &WalkPlan<'_>, k: usize, one: usize, other: usize) -> Option<usize> {
        let first = self.fit(plan, k, one);
        let second = self.fit(plan, k, other);
        match (first, second) {
            (Fit::Broken, Fit::Broken) => None,
            (Fit::Broken, _) => Some(other),
            (_, Fit::Broken) => Some(one),
            (Fit::Poor, Fit::Good) => Some(other),
            (Fit::Good, Fit::Poor) => Some(one),
            _ => Some(self.cast(plan, one, other)),
        }
    }

    /// The edge over which the walk goes on.
    fn next_edge(&mut self, plan: &WalkPlan<'_>) -> Option<usize> {
        let k = self.node;
        if k >= plan.graph.node_count() {
            return None;
        }
        let (first, end) = plan.graph.edges_of(k);
        let branch = match plan.edge(first) {
            Some(numbers) => matches!(numbers.edge.kind, EdgeKind::Taken),
            None => false,
        };
        if branch && end > first && end - first > 1 {
            self.choose(plan, k, first, end - 1)
        } else if self.fit(plan, k, first) == Fit::Broken {
            None
        } else {
            Some(first)
        }
    }

    /// Over edge `e` to where it leads.
    fn go(&mut self, plan: &WalkPlan<'_>, e: usize) -> Moved {
        if e >= plan.graph.edge_count() {
            return Moved::Stuck;
        }
        match plan.graph.target(e) {
            Some(v) => {
                match back_of(plan, e) {
                    Some(l) => self.turn(l),
                    None => self.enter(plan, v),
                }
                self.node = v;
                Moved::On
            }
            None => Moved::Stuck,
        }
    }

    /// One back edge more of a loop.
    fn turn(&mut self, l: usize) {
        if l < self.counts.len() {
            self.counts[l] = self.counts[l].saturating_add(1);
        }
    }

    /// The loop whose header is node `v` is entered, if there is one.
    fn enter(&mut self, plan: &WalkPlan<'_>, v: usize) {
        if let Some(l) = loop_at(&plan.places.headers, v) {
            if l < self.counts.len() {
                self.counts[l] = 0;
            }
        }
    }

    /// A call of function `f` over edge `e`.
    fn call(&mut self, plan: &WalkPlan<'_>, e: usize, f: usize) -> Result<Moved, NoMemory> {
        if f >= plan.graph.function_count() || self.calls.len() >= MOST_CALLS {
            return Ok(Moved::Stuck);
        }
        self.calls.push(e)?;
        let entry = plan.graph.entry_node(f);
        self.enter(plan, entry);
        self.node = entry;
        Ok(Moved::On)
    }

    /// The next step.
    fn advance(&mut self, plan: &WalkPlan<'_>, trace: &mut EdgeTrace) -> Result<Moved, NoMemory> {
        let Some(e) = self.next_edge(plan) else {
            return Ok(Moved::Stuck);
        };
        let Some(numbers) = plan.edge(e) else {
            return Ok(Moved::Stuck);
        };
        if e >= plan.graph.edge_count() {
            return Ok(Moved::Stuck);
        }
        trace.spend(numbers.cost);
        if may_switch(numbers.edge.kind) {
            trace.pass(e);
        }
        if let Some(f) = plan.graph.callee(e) {
            self.call(plan, e, f)
        } else if plan.graph.is_return(e) {
            match self.calls.pop() {
                Some(from) => Ok(self.go(plan, from)),
                None => Ok(Moved::Stuck),
            }
        } else if plan.graph.is_exit(e) {
            Ok(Moved::Exited)
        } else {
            Ok(self.go(plan, e))
        }
    }
}

/// The loop of which edge `e` is a back edge.
fn back_of(plan: &WalkPlan<'_>, e: usize) -> Option<usize> {
    plan.edge(e)?.back
}

/// The slack of edge `e`: the dearer edge of a branch has less.
fn slack_of(plan: &WalkPlan<'_>, e: usize) -> u64 {
    match plan.edge(e) {
        Some(numbers) => numbers.slack,
        None => u64::MAX,
    }
}

/// Traces the walk of a number. Its cycles, if it comes to an exit soon enough.
pub fn walked(
    alloc: Global,
    plan: &WalkPlan<'_>,
    number: usize,
    trace: &mut EdgeTrace,
) -> Result<Option<u64>, NoMemory> {
    trace.begin();
    let mut walker = Walker::new(alloc, plan, number)?;
    for _ in 0..MOST_STEPS {
        match walker.advance(plan, trace)? {
            Moved::On => {}
            Moved::Exited => return Ok(Some(trace.cycles())),
            Moved::Stuck => return Ok(None),
        }
    }
    Ok(None)
}
