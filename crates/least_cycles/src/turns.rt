//! The least cost of one turn of a loop, and what the loop is charged with.

ghost use Rattle.std.specs.Prelude.{◌≡◌, ℕ, Bool, List, ◌↔◌, ◌+◌, ◌^◌, ◌<◌, ◌≤◌, true, length, slice_index, IfOk, OnOk};
ghost use Rattle.std.specs.List.Sorted.{IsNonDecreasingBy};
ghost use Rattle.graph_algorithms.specs.Arcs.{number_in_place};
ghost use Rattle.cost_theory.specs.LeastTurns.{turn_step, turn_last};
ghost use Rattle.flow_graph.specs.FlowGraph.{graph as graph_seen, IsFlowGraph};
ghost use Rattle.loop_forest.specs.Noted.{node_address};
ghost use Rattle.loop_forest.specs.Tree.{loops, IsLoopTree};
ghost use Rattle.cycle_laws.specs.Charged.{Charged};
ghost use Rattle.least_cycles.specs.Functions.{ArePlacesIn, AreNodeNumbers, IsNodeFlagged, IsFromFirst};
ghost use Rattle.least_cycles.specs.Charging.{IsBodyOf, AreChargeMarks, AreCharges, IsChargeKnown, loop_charge};
ghost use Rattle.least_cycles.specs.Passes.{IsLoopBody, AreSpots, AreKindsIn, IsPricedFunction, IsLoopKnown};

use crate::charges::Charges;
use crate::function::{Runs, least_in};
use crate::order::ranked;
use crate::prices::small;
use flow_graph::CodeGraph;
use loop_forest::LoopTree;
use scale_base::{NoMemory, WORD_LIMIT};
use std::alloc::Global;

/// What is used for one loop after the other: the place of each node in its body, and by edge whether it ends a turn and whether
/// it goes on within one.
#[derive(Drop)]
pub struct Marks {
    pub spots: Vec<usize>,
    pub turns: Vec<bool>,
    pub stays: Vec<bool>,
}

/// A loop of a graph and the nodes of its body.
#[derive(Clone, Copy)]
pub struct Body<'a> {
    pub graph: &'a CodeGraph,
    pub tree: &'a LoopTree,
    /// The number of the loop.
    pub number: usize,
    pub nodes: &'a [usize],
}

/// A function of a graph with its loops, whose edges are priced.
#[derive(Clone, Copy)]
pub struct PricedFunction<'a> {
    pub graph: &'a CodeGraph,
    pub tree: &'a LoopTree,
    /// The number of the function.
    pub number: usize,
    /// By edge, its cost without a charge, and whether it is the last of a walk to an exit.
    pub costs: &'a [u64],
    pub lasts: &'a [bool],
    /// By node, its place in the plain order, counted from the last.
    pub ranks: &'a [usize],
}

/// Whether node `k` is one of some nodes.
fn is_in(nodes: &[usize], spots: &[usize], k: usize) -> bool
    requires spots { ArePlacesIn nodes.now spots.now }
    requires node { k < length spots.now }
    ensures { (result ≡ true) ↔ ((i : ℕ) × (i < length nodes.now) × (number_in_place nodes.now i ≡ k)) }
{
    let i = spots[k];
    i < nodes.len() && nodes[i] == k
}

/// The nodes of the body of loop `l` by their ranks, and the place of each among them.
fn body_nodes(
    alloc: Global,
    priced: &PricedFunction<'_>,
    l: usize,
    spots: &mut Vec<usize>,
) -> Result<Vec<usize>, NoMemory>
    requires flow { IsFlowGraph priced.now.graph.now }
    requires tree { (extent : ℕ → ℕ → Bool) × IsLoopTree priced.now.graph.now extent priced.now.tree.now }
    requires loop_number { l < length priced.now.tree.now.headers }
    requires size { length spots.old.items ≡ length priced.now.graph.now.code.nodes }
    ensures nodes { IfOk result (λ nodes. IsBodyOf priced.now.graph.now priced.now.tree.now l nodes.items) }
    ensures few { IfOk result (λ nodes. length nodes.items ≤ WORD_LIMIT) }
    ensures order { IfOk result (λ nodes. IsNonDecreasingBy (number_in_place priced.now.ranks.now) nodes.items) }
    ensures spots { IfOk result (λ nodes. ArePlacesIn nodes.items spots.new.items) }
    ensures size { length spots.new.items ≡ length spots.old.items }
{
    let _count = priced.graph.node_count();
    let nodes = ranked(alloc, priced.tree.body(l), priced.ranks, spots)?;
    Ok(nodes)
}

/// Whether edge `e` of the body of a loop ends a turn, and whether it goes on within one.
fn turn_kind(body: &Body<'_>, spots: &[usize], e: usize) -> (bool, bool)
    requires body { IsLoopBody body.now }
    requires spots { AreSpots body.now spots.now }
    requires edge { e < length body.now.graph.now.code.edges }
    requires from { (loops body.now.graph.now body.now.tree.now).inside body.now.number ((graph_seen body.now.graph.now).source e) ≡ true }
    ensures turn { result.0 ≡ turn_last (graph_seen body.now.graph.now) (loops body.now.graph.now body.now.tree.now) body.now.number e }
    ensures stay { result.1 ≡ turn_step (graph_seen body.now.graph.now) (loops body.now.graph.now body.now.tree.now) body.now.number e }
{
    let Some(k) = body.graph.target(e) else {
        return (false, false);
    };
    if k == body.tree.header(body.number) {
        (true, false)
    } else {
        (false, is_in(body.nodes, spots, k))
    }
}

/// Marks the edges of the node at place `i` of the body of a loop.
fn mark_node(
    body: &Body<'_>,
    spots: &[usize],
    i: usize,
    turns: &mut Vec<bool>,
    stays: &mut Vec<bool>,
)
    requires body { IsLoopBody body.now }
    requires spots { AreSpots body.now spots.now }
    requires place { i < length body.now.nodes.now }
    requires marked { AreKindsIn body.now (IsFromFirst body.now.graph.now body.now.nodes.now i) turns.old.items stays.old.items }
    ensures { AreKindsIn body.now (IsFromFirst body.now.graph.now body.now.nodes.now (i + 1)) turns.new.items stays.new.items }
{
    let (first, end) = body.graph.edges_of(body.nodes[i]);
    for e in first..end {
        let (turn, stay) = turn_kind(body, spots, e);
        turns[e] = turn;
        stays[e] = stay;
    }
}

/// Marks the edges of the body of a loop.
fn mark_body(body: &Body<'_>, spots: &[usize], turns: &mut Vec<bool>, stays: &mut Vec<bool>)
    requires body { IsLoopBody body.now }
    requires spots { AreSpots body.now spots.now }
    requires turns { length turns.old.items ≡ length body.now.graph.now.code.edges }
    requires stays { length stays.old.items ≡ length body.now.graph.now.code.edges }
    ensures { AreKindsIn body.now (IsFromFirst body.now.graph.now body.now.nodes.now (length body.now.nodes.now)) turns.new.items
        stays.new.items }
{
    for i in 0..body.nodes.len() {
        mark_node(body, spots, i, turns, stays);
    }
}

/// Whether no edge of node `k` is the last of a walk to an exit.
fn is_shut(graph: &CodeGraph, k: usize, lasts: &[bool]) -> bool
    requires node { k < length graph.now.code.nodes }
    requires size { length lasts.now ≡ length graph.now.code.edges }
    ensures { (result ≡ true) ↔ ((e : ℕ) → e < length graph.now.code.edges → (graph_seen graph.now).source e ≡ node_address graph.now k →
        IsNodeFlagged lasts.now e → ⊥) }
{
    let (first, end) = graph.edges_of(k);
    for e in first..end {
        if lasts[e] {
            return false;
        }
    }
    true
}

/// Whether no edge of some nodes is the last of a walk to an exit.
fn are_shut(graph: &CodeGraph, nodes: &[usize], lasts: &[bool]) -> bool
    requires nodes { AreNodeNumbers graph.now nodes.now }
    requires size { length lasts.now ≡ length graph.now.code.edges }
    ensures { (result ≡ true) ↔ ((e : ℕ) → e < length graph.now.code.edges → IsFromFirst graph.now nodes.now (length nodes.now) e →
        IsNodeFlagged lasts.now e → ⊥) }
{
    for k in nodes {
        if !is_shut(graph, *k, lasts) {
            return false;
        }
    }
    true
}

/// The least cost of one turn of a loop, by the costs of the edges of its body and the charges of the loops within it.
fn turn_of(
    alloc: Global,
    body: &Body<'_>,
    costs: &[u64],
    marks: &mut Marks,
    charges: &Charges,
) -> Result<u64, NoMemory>
    requires body { IsLoopBody body.now }
    requires turning { 0 < slice_index body.now.tree.now.least_trips body.now.number }
    requires few { length body.now.nodes.now ≤ WORD_LIMIT }
    requires marks { AreChargeMarks body.now.graph.now marks.old }
    requires spots { ArePlacesIn body.now.nodes.now marks.old.spots.items }
    requires costs { length costs.now ≡ length body.now.graph.now.code.edges }
    requires low { (e : ℕ) → number_in_place costs.now e ≤ 2 ^ 49 }
    requires charges { AreCharges body.now.graph.now body.now.tree.now charges.now }
    requires known { (w : ℕ → ℕ) × (n : Charged) × (lasts : List Bool) × IsChargeKnown body.now.graph.now body.now.tree.now w n
        body.now.number costs.now lasts charges.now.found.items }
    ensures turn { IfOk result (λ x. (w : ℕ → ℕ) (n : Charged) (lasts : List Bool) →
        IsChargeKnown body.now.graph.now body.now.tree.now w n body.now.number costs.now lasts charges.now.found.items →
        x ≡ n.turn body.now.number) }
    ensures marks { OnOk result (AreChargeMarks body.now.graph.now marks.new) }
{
    let _count = body.graph.node_count();
    mark_body(body, &marks.spots, &mut marks.turns, &mut marks.stays);
    let table = least_in(
        alloc,
        &Runs {
            graph: body.graph,
            nodes: body.nodes,
            places: &marks.spots,
            lasts: &marks.turns,
            steps: &marks.stays,
            costs,
            charges,
        },
    )?;
    Ok(small(table[marks.spots[body.tree.header(body.number)]]))
}

/// What loop `l` is charged with: nothing where it may be left by an exit, and else the turns that it has to take, each at the
/// least cost of one.
pub fn charge_of_loop(
    alloc: Global,
    priced: &PricedFunction<'_>,
    l: usize,
    marks: &mut Marks,
    charges: &Charges,
) -> Result<u64, NoMemory>
    requires priced { IsPricedFunction priced.now }
    requires loop_number { l < length priced.now.tree.now.headers }
    requires marks { AreChargeMarks priced.now.graph.now marks.old }
    requires charges { AreCharges priced.now.graph.now priced.now.tree.now charges.now }
    requires known { (w : ℕ → ℕ) × (n : Charged) × IsLoopKnown priced.now w n l charges.now.found.items }
    ensures charge { IfOk result (λ x. (w : ℕ → ℕ) (n : Charged) → IsLoopKnown priced.now w n l charges.now.found.items →
        x ≡ loop_charge priced.now.graph.now priced.now.tree.now n l) }
    ensures marks { OnOk result (AreChargeMarks priced.now.graph.now marks.new) }
{
    let trips = priced.tree.least_trips(l);
    if trips == 0 {
        return Ok(0);
    }
    let nodes = body_nodes(alloc, priced, l, &mut marks.spots)?;
    if !are_shut(priced.graph, &nodes, priced.lasts) {
        return Ok(0);
    }
    let body = Body {
        graph: priced.graph,
        tree: priced.tree,
        number: l,
        nodes: &nodes,
    };
    let turn = turn_of(alloc, &body, priced.costs, marks, charges)?;
    Ok(u64::from(trips) * turn)
}
