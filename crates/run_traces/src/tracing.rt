//! What a run does at the edges of branches and jumps, and how often it has turned in some loops.

use crate::turning::{LoopPlan, MOST_LOOPS, Turning};
use code_graph::CodeGraph;
use power_model::Costs;
use scale_base::{Class, EdgeKind, NoMemory, Stepped};
use speed_sim::Watches;
use std::alloc::Global;
use std::marker::Model;

/// How often a run goes over an edge, and the cycles so far at the first and at the last pass.
#[derive(Clone, Copy)]
pub struct Passed {
    pub passes: u64,
    pub first: u64,
    pub last: u64,
}

impl Passed {
    /// An edge that no run goes over.
    pub fn never() -> Passed {
        Passed {
            passes: 0,
            first: u64::MAX,
            last: u64::MAX,
        }
    }
}

/// The numbers of the edges of a node that can have a switch.
#[derive(Clone, Copy)]
struct Exits {
    taken: Option<usize>,
    untaken: Option<usize>,
    jump: Option<usize>,
}

impl Exits {
    /// No edges.
    fn none() -> Exits {
        Exits {
            taken: None,
            untaken: None,
            jump: None,
        }
    }

    /// With edge `e` of a kind.
    fn with(self, kind: EdgeKind, e: usize) -> Exits {
        let mut exits = self;
        match kind {
            EdgeKind::Taken => exits.taken = Some(e),
            EdgeKind::Untaken => exits.untaken = Some(e),
            EdgeKind::Jump => exits.jump = Some(e),
            _ => {}
        }
        exits
    }

    /// The edge of a kind.
    fn edge(&self, kind: EdgeKind) -> Option<usize> {
        match kind {
            EdgeKind::Taken => self.taken,
            EdgeKind::Untaken => self.untaken,
            EdgeKind::Jump => self.jump,
            _ => None,
        }
    }
}

/// The edges of node `k` that can have a switch.
fn exits_of(graph: &CodeGraph, first: usize, end: usize) -> Exits {
    let mut exits = Exits::none();
    for e in first..end {
        if e < graph.edge_count() {
            exits = exits.with(graph.edge(e).kind, e);
        }
    }
    exits
}

/// By word of the text, the edges of its instruction that can have a switch: from the first node to the last one.
#[derive(Drop)]
struct ExitTable {
    first: u32,
    exits: Vec<Exits>,
}

impl ExitTable {
    fn new(alloc: Global, graph: &CodeGraph) -> Result<ExitTable, NoMemory> {
        let nodes = graph.nodes();
        let (first, last) = match (nodes.first(), nodes.last()) {
            (Some(first), Some(last)) => (*first, *last),
            _ => (0, 0),
        };
        let words = (last.saturating_sub(first) / 4) as usize;
        let mut table = ExitTable {
            first,
            exits: vec![in alloc; Exits::none(); words + 1]?,
        };
        for k in 0..graph.node_count() {
            table.put(graph, k);
        }
        Ok(table)
    }

    /// The place of an address.
    fn place(&self, at: u32) -> usize {
        (at.wrapping_sub(self.first) / 4) as usize
    }

    /// Puts the edges of node `k` at its place.
    fn put(&mut self, graph: &CodeGraph, k: usize) {
        if k < graph.node_count() {
            let place = self.place(graph.node(k));
            let (first, end) = graph.edges_of(k);
            if place < self.exits.len() {
                self.exits[place] = exits_of(graph, first, end);
            }
        }
    }

    /// The edge over which a run leaves an instruction, of a kind that can have a switch.
    fn edge(&self, at: u32, kind: EdgeKind) -> Option<usize> {
        let place = self.place(at);
        if place < self.exits.len() {
            self.exits[place].edge(kind)
        } else {
            None
        }
    }
}

/// Whether an edge is one of a branch or of a jump, which may have a switch.
pub fn may_switch(kind: EdgeKind) -> bool {
    matches!(kind, EdgeKind::Taken | EdgeKind::Untaken | EdgeKind::Jump)
}

/// The other edge of the branch of edge `e`.
pub fn other_of(graph: &CodeGraph, e: usize) -> Option<usize> {
    if e >= graph.edge_count() {
        return None;
    }
    let (first, end) = graph.edges_of(graph.source(e));
    for d in first..end {
        if d != e && d < graph.edge_count() && may_switch(graph.edge(d).kind) {
            return Some(d);
        }
    }
    None
}

/// What the present run has done so far at each edge. Contracts see nothing of it.
#[derive(Drop)]
pub struct EdgeTrace {
    exits: ExitTable,
    costs: Costs,
    cycles: u64,
    passed: Vec<Passed>,
    turning: Vec<Turning>,
    counts: [u64; 8],
    times: Vec<Vec<u64>>,
}

impl Model for EdgeTrace {
    ghost Value = { Unit {0} };

    ghost view = { λ _. tt };
}

impl EdgeTrace {
    /// A trace of no run, in which no loop's turns are counted.
    pub fn new(alloc: Global, graph: &CodeGraph, costs: &Costs) -> Result<EdgeTrace, NoMemory> {
        let exits = ExitTable::new(alloc, graph)?;
        let passed = vec![in alloc; Passed::never(); graph.edge_count()]?;
        Ok(EdgeTrace {
            exits,
            costs: *costs,
            cycles: 0,
            passed,
            turning: Vec::new(alloc),
            counts: [0; 8],
            times: Vec::new(alloc),
        })
    }

    /// Has the turns of some loops counted from now on.
    pub fn count(&mut self, alloc: Global, loops: &[LoopPlan]) -> Result<(), NoMemory> {
        let mut turning = vec![in alloc; Turning::none(); self.passed.len()]?;
        let mut times = Vec::new(alloc);
        for (j, plan) in loops.iter().enumerate() {
            if j < MOST_LOOPS {
                plan.put(&mut turning, j, times.len());
                for _ in 0..plan.backs.len() {
                    times.push(Vec::with_capacity(alloc, 2048)?)?;
                }
            }
        }
        self.turning = turning;
        self.times = times;
        Ok(())
    }

    /// Begins with the next run.
    pub fn begin(&mut self) {
        self.cycles = 0;
        self.counts = [0; 8];
        for passed in self.passed.iter_mut() {
            *passed = Passed::never();
        }
        for times in self.times.iter_mut() {
            times.clear();
        }
    }

    /// What the run has done at edge `e`.
    pub fn passed(&self, e: usize) -> Passed {
        if e < self.passed.len() {
            self.passed[e]
        } else {
            Passed::never()
        }
    }

    /// By the shifted count of its loop's turns, the cycles so far when the run first went over back edge `e` at such a count or a greater one.
    pub fn times(&self, e: usize) -> &[u64] {
        match self.turning_of(e).table {
            Some(t) if t < self.times.len() => &self.times[t],
            _ => &[],
        }
    }

    /// The cycles of the run so far.
    pub fn cycles(&self) -> u64 {
        self.cycles
    }

    /// The run takes so many cycles.
    pub fn spend(&mut self, cycles: u64) {
        self.cycles = self.cycles.saturating_add(cycles);
    }

    /// The run goes over edge `e`.
    pub fn pass(&mut self, e: usize) {
        let before = self.passed(e);
        let first = before.first.min(self.cycles);
        if e < self.passed.len() {
            self.passed[e] = Passed {
                passes: before.passes.saturating_add(1),
                first,
                last: self.cycles,
            };
        }
        if e < self.turning.len() && self.turning[e].counts {
            let turning = self.turning[e];
            self.turn(&turning);
        }
    }

    /// What loops have to do with edge `e`.
    fn turning_of(&self, e: usize) -> Turning {
        if e < self.turning.len() {
            self.turning[e]
        } else {
            Turning::none()
        }
    }

    /// The run goes over an edge that turns or leaves some loops.
    fn turn(&mut self, turning: &Turning) {
        for j in 0..MOST_LOOPS {
            if turning.leaves[j] {
                self.counts[j] = 0;
            }
        }
        if let (Some(j), Some(t)) = (turning.turns, turning.table) {
            if j < MOST_LOOPS && t < self.times.len() {
                self.counts[j] = self.counts[j].saturating_add(1);
                let shifted = self.counts[j] >> turning.shift.min(63);
                fill(&mut self.times[t], shifted, self.cycles);
            }
        }
    }

    /// The run leaves an instruction by its edge of a kind.
    fn leave(&mut self, at: u32, kind: EdgeKind) {
        if let Some(e) = self.exits.edge(at, kind) {
            self.pass(e);
        }
    }
}

/// Notes a time for each count up to one that has none yet. There is memory for 2,048.
fn fill(times: &mut Vec<u64>, count: u64, cycles: u64) {
    for _ in 0..2048 {
        if times.len() < 2048 && (times.len() as u64) <= count {
            let _room = times.push(cycles);
        } else {
            return;
        }
    }
}

impl Watches for EdgeTrace {
    ghost watched = { λ _ _. tt };

    fn show(&mut self, step: &Stepped) {
        let costs = self.costs;
        let cost = u64::from(costs.of(step.class));
        self.spend(cost);
        match step.class {
            Class::Taken => self.leave(step.pc, EdgeKind::Taken),
            Class::Untaken => self.leave(step.pc, EdgeKind::Untaken),
            Class::Jump => self.leave(step.pc, EdgeKind::Jump),
            _ => {}
        }
    }
}
