//! A program with all that is drawn of it.

ghost use Rattle.std.specs.Prelude.{◌≡◌};
ghost use Rattle.graph_algorithms.specs.Arcs.{number_in_place};

use code_names::Names;
use flow_graph::CodeGraph;
use loop_forest::LoopTree;
use scale_sites::{CounterList, Sites};
use worst_cycles::WorstNumbers;
use worst_walks::WalkCounts;

/// The marks of a program's edges, with the counted loops.
#[derive(Drop)]
pub struct Marked {
    pub counters: CounterList,
    pub sites: Sites,
}

/// A program with its loops and its numbers, the marks of its edges where its loops can be counted, and the counts of a walk that takes its worst cycles, if one is found.
#[derive(Clone, Copy)]
pub struct Sketch<'a, 'n> {
    pub graph: &'a CodeGraph,
    pub tree: &'a LoopTree,
    pub worst: &'a WorstNumbers,
    pub marked: &'a Option<Marked>,
    pub walk: &'a Option<WalkCounts>,
    pub names: &'a Names<'n>,
}

/// The number at place `k` of a table, and 0 behind its end.
pub fn number_at(table: &[u64], k: usize) -> u64
    ensures { result ≡ number_in_place table.now k }
{
    if k < table.len() { table[k] } else { 0 }
}
