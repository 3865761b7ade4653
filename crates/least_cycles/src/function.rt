//! The least costs of runs over the edges of some nodes.

ghost use Rattle.std.specs.Prelude.{◌≡◌, ℕ, ◌+◌, ◌^◌, ◌<◌, ◌≤◌, length, Some, IfOk, OnOk};
ghost use Rattle.least_cycles.specs.Hops.{number_in_table};
ghost use Rattle.least_cycles.specs.Functions.{IsFromFirst};
ghost use Rattle.least_cycles.specs.Passes.{AreRuns, IsWayIn, AreHopsIn, AreLeastOf};

use crate::charges::Charges;
use crate::{Hop, Way, least_costs};
use flow_graph::CodeGraph;
use scale_base::NoMemory;
use std::alloc::Global;

/// No edge costs more with its charge and the function that it calls.
const MOST: u64 = 1 << 50;

/// Some nodes of a graph and the runs over their edges.
#[derive(Clone, Copy)]
pub struct Runs<'a> {
    pub graph: &'a CodeGraph,
    pub nodes: &'a [usize],
    /// By node, its place among these.
    pub places: &'a [usize],
    /// By edge, whether it is the last of a run, and whether it leads on.
    pub lasts: &'a [bool],
    pub steps: &'a [bool],
    /// By edge, its cost without a charge.
    pub costs: &'a [u64],
    pub charges: &'a Charges,
}

/// Where edge `e` leads, by the places of the nodes.
fn way_of(runs: &Runs<'_>, e: usize) -> Way
    requires runs { AreRuns runs.now }
    requires edge { e < length runs.now.graph.now.code.edges }
    requires from { IsFromFirst runs.now.graph.now runs.now.nodes.now (length runs.now.nodes.now) e }
    ensures { IsWayIn runs.now result e }
{
    if runs.lasts[e] {
        return Way::Last;
    }
    if !runs.steps[e] {
        return Way::Stop;
    }
    match runs.graph.target(e) {
        Some(k) => Way::To(runs.places[k]),
        None => Way::Stop,
    }
}

/// Adds the hops of the edges of the node at place `i`.
fn push_hops(runs: &Runs<'_>, i: usize, hops: &mut Vec<Hop>) -> Result<(), NoMemory>
    requires runs { AreRuns runs.now }
    requires place { i < length runs.now.nodes.now }
    requires done { AreHopsIn runs.now (IsFromFirst runs.now.graph.now runs.now.nodes.now i) hops.old.items }
    ensures { OnOk result (AreHopsIn runs.now (IsFromFirst runs.now.graph.now runs.now.nodes.now (i + 1)) hops.new.items) }
{
    let (first, end) = runs.graph.edges_of(runs.nodes[i]);
    for e in first..end {
        let way = way_of(runs, e);
        let charge = runs.charges.over(e);
        hops.push(Hop {
            tail: i,
            way,
            cost: runs.costs[e] + charge,
        })?;
    }
    Ok(())
}

/// The hops of the edges of the nodes.
fn hops_of(alloc: Global, runs: &Runs<'_>) -> Result<Vec<Hop>, NoMemory>
    requires { AreRuns runs.now }
    ensures { IfOk result (λ hops. AreHopsIn runs.now (IsFromFirst runs.now.graph.now runs.now.nodes.now (length runs.now.nodes.now))
        hops.items) }
{
    let mut hops = Vec::new(alloc);
    for i in 0..runs.nodes.len() {
        push_hops(runs, i, &mut hops)?;
    }
    Ok(hops)
}

/// By place among the nodes, the least cost of a run over one of the last edges, which leads there over steps. An edge costs what
/// it is charged more.
pub fn least_in(alloc: Global, runs: &Runs<'_>) -> Result<Vec<Option<u128>>, NoMemory>
    requires { AreRuns runs.now }
    ensures least { IfOk result (λ table. AreLeastOf runs.now table.items) }
    ensures size { IfOk result (λ table. length table.items ≡ length runs.now.nodes.now) }
    ensures low { IfOk result (λ table. (i x : ℕ) → number_in_table table.items i ≡ Some x → x ≤ 2 ^ 67) }
{
    let hops = hops_of(alloc, runs)?;
    let table = least_costs(alloc, runs.nodes.len(), &hops, MOST)?;
    Ok(table)
}
