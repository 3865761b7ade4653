//! Loops whose turns may be tallied: their back edges, the edges that leave them, and what a tally costs on each.

use crate::costs::StubCosts;
use crate::numbers::Numbers;
use crate::tracing::may_switch;
use flow_graph::CodeGraph;
use level_tables::tally_shift;
use loop_forest::LoopTree;
use scale_base::NoMemory;
use std::alloc::Global;

/// How many loops are counted at most.
pub const MOST_LOOPS: usize = 8;

/// How many back edges a loop that is tallied has at most, and how many edges that leave it.
const MOST_BACKS: usize = 8;

const MOST_LEAVING: usize = 64;

/// What the counted loops have to do with an edge: the one of which it is a back edge, with the number of its times and the shift of its
/// count, and those that it leaves.
#[derive(Clone, Copy)]
pub struct Turning {
    pub counts: bool,
    pub turns: Option<usize>,
    pub table: Option<usize>,
    pub shift: u8,
    pub leaves: [bool; 8],
}

impl Turning {
    /// Nothing.
    pub fn none() -> Turning {
        Turning {
            counts: false,
            turns: None,
            table: None,
            shift: 0,
            leaves: [false; 8],
        }
    }
}

/// What an edge costs more where a loop is tallied, in cycles.
#[derive(Clone, Copy)]
pub struct Charge {
    pub edge: usize,
    pub cycles: u64,
}

/// A loop that may be tallied: its number, the address of its header, the shift of its count and the most that its bound lets this be, its
/// back edges, the edges that leave it, and what each edge costs more then.
#[derive(Drop)]
pub struct LoopPlan {
    pub number: usize,
    pub header: u32,
    pub shift: u8,
    pub most: usize,
    pub backs: Vec<usize>,
    pub leaving: Vec<usize>,
    pub charges: Vec<Charge>,
}

impl LoopPlan {
    /// Notes at its edges that it is counted, as number `j`, with the times of its back edges from number `table` on.
    pub fn put(&self, turning: &mut [Turning], j: usize, table: usize) {
        for (k, e) in self.backs.iter().enumerate() {
            if *e < turning.len() {
                turning[*e].counts = true;
                turning[*e].turns = Some(j);
                turning[*e].table = Some(table.saturating_add(k));
                turning[*e].shift = self.shift;
            }
        }
        for e in &self.leaving {
            if *e < turning.len() && j < MOST_LOOPS {
                turning[*e].counts = true;
                turning[*e].leaves[j] = true;
            }
        }
    }

    /// The same without edges.
    fn bare(alloc: Global, graph: &CodeGraph, tree: &LoopTree, l: usize) -> LoopPlan {
        LoopPlan {
            number: l,
            header: header_of(graph, tree, l),
            shift: shift_of(tree, l),
            most: most_of(tree, l),
            backs: Vec::new(alloc),
            leaving: Vec::new(alloc),
            charges: Vec::new(alloc),
        }
    }

    /// What a tally's code costs on edge `e`, if it has any there.
    fn code(&self, e: usize, costs: &StubCosts) -> u64 {
        if self.backs.contains(&e) {
            costs.tally
        } else if self.leaving.contains(&e) {
            costs.reset
        } else {
            0
        }
    }

    /// Adds edge `e` of the loop's body. Whether it can have a stub where it is a back edge, and there are few such edges.
    fn add_edge(
        &mut self,
        graph: &CodeGraph,
        tree: &LoopTree,
        numbers: &Numbers,
        e: usize,
    ) -> Result<bool, NoMemory> {
        if e >= graph.edge_count() || e >= numbers.edges.len() {
            return Ok(true);
        }
        let may = may_switch(graph.edge(e).kind);
        if numbers.edges[e].back == Some(self.number) {
            self.backs.push(e)?;
            Ok(may && self.backs.len() <= MOST_BACKS)
        } else {
            if may && leaves(graph, tree, self.number, e) {
                self.leaving.push(e)?;
            }
            Ok(self.leaving.len() <= MOST_LEAVING)
        }
    }

    /// Adds the edges of node `k`. Whether the loop's back edges can still have stubs.
    fn add_node(
        &mut self,
        graph: &CodeGraph,
        tree: &LoopTree,
        numbers: &Numbers,
        k: usize,
    ) -> Result<bool, NoMemory> {
        if k < graph.node_count() {
            let (first, end) = graph.edges_of(k);
            for e in first..end {
                if !self.add_edge(graph, tree, numbers, e)? {
                    return Ok(false);
                }
            }
        }
        Ok(true)
    }

    /// Whether a tally has code on an edge of some.
    fn marks(&self, first: usize, end: usize) -> bool {
        for e in first..end {
            if self.backs.contains(&e) || self.leaving.contains(&e) {
                return true;
            }
        }
        false
    }

    /// Adds what the edges of node `k` cost more, if one of them is marked.
    fn charge_node(
        &mut self,
        graph: &CodeGraph,
        costs: &StubCosts,
        k: usize,
    ) -> Result<(), NoMemory> {
        if k < graph.node_count() {
            let (first, end) = graph.edges_of(k);
            if self.marks(first, end) {
                for e in first..end {
                    self.charge(graph, costs, e)?;
                }
            }
        }
        Ok(())
    }

    /// Adds what edge `e` of a marked instruction costs more.
    fn charge(&mut self, graph: &CodeGraph, costs: &StubCosts, e: usize) -> Result<(), NoMemory> {
        if e < graph.edge_count() {
            let jumps = costs.jumps(graph.edge(e).kind);
            let cycles = self.code(e, costs).saturating_add(jumps);
            self.charges.push(Charge { edge: e, cycles })?;
        }
        Ok(())
    }
}

/// Whether edge `e` leads out of loop `l`, from a node of its body.
fn leaves(graph: &CodeGraph, tree: &LoopTree, l: usize, e: usize) -> bool {
    if e >= graph.edge_count() || l >= tree.loop_count() {
        return false;
    }
    match graph.target(e) {
        Some(v) => !tree.in_body(l, v),
        None => false,
    }
}

/// The address of the header of loop `l`.
fn header_of(graph: &CodeGraph, tree: &LoopTree, l: usize) -> u32 {
    if l >= tree.loop_count() {
        return 0;
    }
    let h = tree.header(l);
    if h < graph.node_count() {
        graph.node(h)
    } else {
        0
    }
}

/// The shift of the count of loop `l`.
fn shift_of(tree: &LoopTree, l: usize) -> u8 {
    if l < tree.loop_count() {
        tally_shift(tree.bound(l))
    } else {
        0
    }
}

/// The most that the shifted count of loop `l` can be.
fn most_of(tree: &LoopTree, l: usize) -> usize {
    if l < tree.loop_count() {
        (tree.bound(l) >> tally_shift(tree.bound(l))) as usize
    } else {
        0
    }
}

/// A program's graph and loops, with its numbers.
#[derive(Clone, Copy)]
pub struct NumberedProgram<'a> {
    pub graph: &'a CodeGraph,
    pub tree: &'a LoopTree,
    pub numbers: &'a Numbers,
}

/// Loop `l` as one that is tallied, if each of its back edges can have a stub, and it has few of them and of edges that leave it.
pub fn loop_plan(
    alloc: Global,
    program: &NumberedProgram<'_>,
    costs: &StubCosts,
    l: usize,
) -> Result<Option<LoopPlan>, NoMemory> {
    let (graph, tree) = (program.graph, program.tree);
    if l >= tree.loop_count() {
        return Ok(None);
    }
    let mut plan = LoopPlan::bare(alloc, graph, tree, l);
    for k in tree.body(l) {
        if !plan.add_node(graph, tree, program.numbers, *k)? {
            return Ok(None);
        }
    }
    for k in tree.body(l) {
        plan.charge_node(graph, costs, *k)?;
    }
    Ok(Some(plan))
}
