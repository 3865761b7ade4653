//! The edges on which one switch alone saves most, and the loops in which the runs are longest.

use crate::marks::{Mark, change_energy, energy_at, entry, mark_of};
use flow_graph::CodeGraph;
use loop_forest::LoopTree;
use power_model::Power;
use run_traces::{
    Candidate, EdgeSum, LoopPlan, MOST_LOOPS, NumberedProgram, Numbers, StubCosts, Sums, loop_plan,
};
use scale_base::NoMemory;
use std::alloc::Global;

/// How many candidates there are at most. A third of them is for loops.
pub const MOST: usize = 24;

/// How many loops are looked at.
const MOST_LONG: usize = 16;

/// An edge with a switch, the level to which it leads from the starting level where it stands alone, what the runs do there, and what it saves
/// then at least, by the weights of the runs.
#[derive(Clone, Copy)]
struct EdgeGain {
    edge: usize,
    entry: u8,
    sum: EdgeSum,
    gain: u128,
}

/// What is known of a program and of its runs: among it what marks cost, and the level at which the runs begin.
#[derive(Clone, Copy)]
pub struct Known<'a> {
    pub power: &'a Power,
    pub numbers: &'a Numbers,
    pub sums: &'a Sums,
    pub costs: StubCosts,
    pub start: u8,
}

/// What the stub of a switch takes in all, where the level behind it is one of so much energy.
fn stub_energy(mark: &Mark, own: &EdgeSum, other: &EdgeSum, low: u128) -> u128 {
    let jumps = u128::from(mark.jumps);
    let each = u128::from(mark.code) + jumps;
    let code = own.passes.saturating_mul(each).saturating_mul(low);
    let late = other.passes.saturating_mul(jumps).saturating_mul(low);
    code.saturating_add(late)
}

/// Whether two switches do nearly the same: runs pass them equally often, and about as early.
fn are_alike(one: &EdgeGain, other: &EdgeGain) -> bool {
    let later = one.sum.behind.min(other.sum.behind);
    let earlier = one.sum.behind.max(other.sum.behind);
    let near = (earlier - later).saturating_mul(32) <= earlier;
    one.entry == other.entry
        && one.sum.runs == other.sum.runs
        && one.sum.passes == other.sum.passes
        && near
}

/// Whether one of some switches does nearly the same as another.
fn has_alike(chosen: &[EdgeGain], other: &EdgeGain) -> bool {
    for one in chosen {
        if are_alike(one, other) {
            return true;
        }
    }
    false
}

impl Known<'_> {
    /// Energy that no switch saves: that of the runs at the starting level.
    pub fn held_energy(&self) -> u128 {
        self.held_at_start(self.sums.cycles())
    }

    /// The energy of so many cycles at the starting level.
    pub fn held_at_start(&self, cycles: u128) -> u128 {
        cycles.saturating_mul(energy_at(self.power, self.start))
    }

    /// What the runs do at the other edge of the branch of a mark.
    fn other_sum(&self, mark: &Mark) -> EdgeSum {
        match mark.other {
            Some(d) => self.sums.edge(d),
            None => EdgeSum::none(),
        }
    }

    /// A switch on edge `e`, if it may have one.
    fn mark_at(&self, e: usize) -> Option<Mark> {
        if e < self.numbers.edges.len() {
            mark_of(&self.numbers.edges[e], &self.costs)
        } else {
            None
        }
    }

    /// What a switch to a level saves alone where the runs do so at its edge.
    fn gain_of(&self, mark: &Mark, sum: &EdgeSum, to: u8) -> u128 {
        let high = energy_at(self.power, self.start);
        let low = energy_at(self.power, to);
        let saved = sum.behind.saturating_mul(high.saturating_sub(low));
        let change = change_energy(self.power, self.start, to);
        let changes = sum.runs.saturating_mul(change);
        let stubs = stub_energy(mark, sum, &self.other_sum(mark), low);
        saved.saturating_sub(stubs.saturating_add(changes))
    }

    /// A switch on edge `e` alone, if it may have one and some run goes over it.
    fn gain_at(&self, e: usize) -> Option<EdgeGain> {
        let sum = self.sums.edge(e);
        if sum.passes == 0 {
            return None;
        }
        let mark = self.mark_at(e)?;
        let entry = entry(self.power, self.start, self.numbers.worst, &mark);
        Some(EdgeGain {
            edge: e,
            entry,
            sum,
            gain: self.gain_of(&mark, &sum, entry),
        })
    }

    /// The edges on which a switch alone saves at least one percent of what the runs take at the starting level, those that save most first.
    fn ranking(&self, alloc: Global) -> Result<Vec<EdgeGain>, NoMemory> {
        let held = self.held_energy();
        let mut found = Vec::new(alloc);
        for e in 0..self.numbers.edges.len() {
            if let Some(given) = self.gain_at(e) {
                if given.gain > 0 && given.gain.saturating_mul(100) >= held {
                    found.push(given)?;
                }
            }
        }
        found.sort_by_key(|g| u128::MAX - g.gain)?;
        Ok(found)
    }

    /// The edges of switches, so many at most, those that save most first, without those that do nearly the same as one before.
    fn edges(&self, alloc: Global, most: usize) -> Result<Vec<EdgeGain>, NoMemory> {
        let mut chosen = Vec::new(alloc);
        for given in &self.ranking(alloc)? {
            if chosen.len() < most && !has_alike(&chosen, given) {
                chosen.push(*given)?;
            }
        }
        Ok(chosen)
    }

    /// The candidates, so many at most: edges, two thirds at most, and behind them loops.
    pub fn candidates(
        &self,
        alloc: Global,
        plans: &[LoopPlan],
        most: usize,
    ) -> Result<Vec<Candidate>, NoMemory> {
        let mut candidates = Vec::new(alloc);
        for given in &self.edges(alloc, most - most / 3)? {
            candidates.push(Candidate::Edge(given.edge))?;
        }
        for j in 0..plans.len() {
            if candidates.len() < most {
                candidates.push(Candidate::Loop(j))?;
            }
        }
        Ok(candidates)
    }
}

/// A loop, and how long the runs are between its first turn and its last.
#[derive(Clone, Copy)]
struct LongLoop {
    number: usize,
    span: u128,
}

/// By loop, how long the runs are between the first and the last pass of a back edge of it.
fn spans_of(
    alloc: Global,
    tree: &LoopTree,
    numbers: &Numbers,
    sums: &Sums,
) -> Result<Vec<LongLoop>, NoMemory> {
    let mut spans = Vec::new(alloc);
    for number in 0..tree.loop_count() {
        spans.push(LongLoop { number, span: 0 })?;
    }
    for e in 0..numbers.edges.len() {
        if let Some(l) = numbers.edges[e].back {
            if l < spans.len() {
                spans[l].span = spans[l].span.max(sums.edge(e).span);
            }
        }
    }
    Ok(spans)
}

/// The loops in which the runs are longest, those first.
fn longest(
    alloc: Global,
    tree: &LoopTree,
    numbers: &Numbers,
    sums: &Sums,
) -> Result<Vec<LongLoop>, NoMemory> {
    let mut spans = spans_of(alloc, tree, numbers, sums)?;
    spans.sort_by_key(|s| u128::MAX - s.span)?;
    spans.truncate(MOST_LONG);
    Ok(spans)
}

/// What tallying a loop takes of the cycles of the runs.
fn tally_cycles(plan: &LoopPlan, sums: &Sums) -> u128 {
    let mut cycles: u128 = 0;
    for charge in &plan.charges {
        let passes = sums.edge(charge.edge).passes;
        cycles = cycles.saturating_add(passes.saturating_mul(u128::from(charge.cycles)));
    }
    cycles
}

/// Whether tallying a loop may save anything: the runs are in it for a while, and it doesn't take much.
fn is_worth_it(plan: &LoopPlan, long: &LongLoop, sums: &Sums) -> bool {
    let cycles = sums.cycles();
    long.span.saturating_mul(20) >= cycles && tally_cycles(plan, sums).saturating_mul(5) <= cycles
}

/// The loops that may be tallied, so many at most, those first in which the runs are longest.
pub fn loops_of(
    alloc: Global,
    graph: &CodeGraph,
    tree: &LoopTree,
    known: &Known<'_>,
    most: usize,
) -> Result<Vec<LoopPlan>, NoMemory> {
    let sums = known.sums;
    let program = NumberedProgram {
        graph,
        tree,
        numbers: known.numbers,
    };
    let mut plans = Vec::new(alloc);
    for long in &longest(alloc, tree, known.numbers, sums)? {
        if let Some(plan) = loop_plan(alloc, &program, &known.costs, long.number)? {
            if plans.len() < most.min(MOST_LOOPS) && is_worth_it(&plan, long, sums) {
                plans.push(plan)?;
            }
        }
    }
    Ok(plans)
}
