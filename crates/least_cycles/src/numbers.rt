//! The least costs from the nodes of a program, and behind its edges.

ghost use Rattle.std.specs.Prelude.{◌≡◌, ℕ, ◌^◌, ◌<◌, ◌≤◌, length, slice_get, Some, IfOk};
ghost use Rattle.flow_graph.specs.FlowGraph.{IsFlowGraph};
ghost use Rattle.least_cycles.specs.Hops.{number_in_table};
ghost use Rattle.least_cycles.specs.Tables.{least_by};
ghost use Rattle.least_cycles.specs.Ends.{AreSmallWalks};
ghost use Rattle.least_cycles.specs.Found.{LeastView, AreEndsTo, AreAfterTo, plus_charge};
ghost use Rattle.least_cycles.specs.Charging.{AreSmallCharges, charge_by};

use crate::charges::Charges;
use crate::ends::{end_at, end_over};
use crate::walks::Walks;
use flow_graph::CodeGraph;
use scale_base::NoMemory;
use std::alloc::Global;
use std::marker::Model;

/// The least costs from each node to a return of its function and to an end of the run, and behind each edge to an end of the run.
/// All are in cycles, and absent where there is no such walk.
#[derive(Drop)]
pub struct LeastNumbers {
    returns: Vec<Option<u128>>,
    ends: Vec<Option<u128>>,
    after: Vec<Option<u128>>,
}

impl Model for LeastNumbers {
    ghost use Rattle.least_cycles.specs.Found.{LeastView};

    ghost Value = { LeastView };

    ghost view = { λ n. record { returns = n.returns.items; ends = n.ends.items; after = n.after.items } };
}

impl LeastNumbers {
    pub(crate) fn from_parts(
        returns: Vec<Option<u128>>,
        ends: Vec<Option<u128>>,
        after: Vec<Option<u128>>,
    ) -> LeastNumbers
        ensures { result ≡ record { returns = returns.items; ends = ends.items; after = after.items } }
    {
        LeastNumbers {
            returns,
            ends,
            after,
        }
    }

    /// The least cost from node `k` to a return of its function.
    pub fn to_return(&self, k: usize) -> Option<u128>
        requires { k < length self.now.returns }
        ensures { slice_get self.now.returns k ≡ Some result }
    {
        self.returns[k]
    }

    /// The least cost from node `k` to an end of the run.
    pub fn to_end(&self, k: usize) -> Option<u128>
        requires { k < length self.now.ends }
        ensures { slice_get self.now.ends k ≡ Some result }
    {
        self.ends[k]
    }

    /// The least cost to an end of the run behind edge `e`, with the edge's charge. Absent for an `End` edge.
    pub fn to_end_after(&self, e: usize) -> Option<u128>
        requires { e < length self.now.after }
        ensures { slice_get self.now.after e ≡ Some result }
    {
        self.after[e]
    }
}

/// By node, the least cost to an end.
pub(crate) fn ends_of(
    alloc: Global,
    graph: &CodeGraph,
    walks: &Walks,
    behind: &[Option<u128>],
) -> Result<Vec<Option<u128>>, NoMemory>
    requires flow { IsFlowGraph graph.now }
    requires walks { AreSmallWalks graph.now walks.now.returns.items walks.now.exits.items }
    requires size { length behind.now ≡ length graph.now.code.functions }
    requires low { (f x : ℕ) → number_in_table behind.now f ≡ Some x → x ≤ 2 ^ 84 }
    ensures { IfOk result (λ ends. AreEndsTo graph.now (least_by graph.now walks.now.returns.items walks.now.exits.items behind.now)
        (length graph.now.code.nodes) ends.items) }
{
    let mut ends = Vec::new(alloc);
    for k in 0..graph.node_count() {
        ends.push(end_at(graph, walks, behind, k))?;
    }
    Ok(ends)
}

/// A number that may be absent, with a charge.
fn charged(number: Option<u128>, charge: u64) -> Option<u128>
    requires { (x : ℕ) → number ≡ Some x → x ≤ 2 ^ 85 }
    ensures { result ≡ plus_charge charge number }
{
    match number {
        Some(x) => Some(x + u128::from(charge)),
        None => None,
    }
}

/// By edge, the least cost to an end behind it, with its charge.
pub(crate) fn after_of(
    alloc: Global,
    graph: &CodeGraph,
    walks: &Walks,
    behind: &[Option<u128>],
    charges: &Charges,
) -> Result<Vec<Option<u128>>, NoMemory>
    requires flow { IsFlowGraph graph.now }
    requires walks { AreSmallWalks graph.now walks.now.returns.items walks.now.exits.items }
    requires size { length behind.now ≡ length graph.now.code.functions }
    requires low { (f x : ℕ) → number_in_table behind.now f ≡ Some x → x ≤ 2 ^ 84 }
    requires charges { AreSmallCharges graph.now charges.now }
    ensures { IfOk result (λ after. AreAfterTo graph.now (least_by graph.now walks.now.returns.items walks.now.exits.items behind.now)
        (charge_by charges.now.entries.items charges.now.found.items) (length graph.now.code.edges) after.items) }
{
    let mut after = Vec::new(alloc);
    for e in 0..graph.edge_count() {
        let end = end_over(graph, walks, behind, e);
        after.push(charged(end, charges.over(e)))?;
    }
    Ok(after)
}
