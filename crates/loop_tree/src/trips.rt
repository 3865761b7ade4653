//! How often loops turn at least before they are left.

ghost use Rattle.std.specs.Prelude.{◌≡◌, ◌↔◌, ℕ, ◌<◌, ◌≤◌, true, Some, length, slice_get, IfOk};
ghost use Rattle.cost_theory.specs.Lists.{is_among};
ghost use Rattle.flow_graph.specs.FlowGraph.{IsFlowGraph};
ghost use Rattle.graph_algorithms.specs.Bodies as extents;
ghost use Rattle.loop_forest.specs.Found.{AreNaturalLoops};
ghost use Rattle.loop_forest.specs.Stored.{IsRising};
ghost use Rattle.loop_tree.specs.Trips.{IsWholeBody, AreTripsOf, AreTrips};

use crate::natural::{NaturalLoops, extent_of};
use flow_graph::CodeGraph;
use graph_algorithms::NodeRange;
use loop_file::{LoopNote, LoopNotes};
use loop_forest::has_number;
use scale_base::NoMemory;
use std::alloc::Global;

// Whether each number of a range that is below a count is among others, which ascend.
fn has_range(numbers: &[usize], range: &NodeRange, count: usize) -> bool
    requires { IsRising numbers.now }
    ensures { (result ≡ true) ↔ ((k : ℕ) → range.now.from ≤ k → k < range.now.to → k < count → is_among k numbers.now ≡ true) }
{
    let end = if range.to < count { range.to } else { count };
    for k in range.from..end {
        if !has_number(numbers, k) {
            return false;
        }
    }
    true
}

// The same of several ranges.
fn has_ranges(numbers: &[usize], ranges: &[NodeRange], count: usize) -> bool
    requires { IsRising numbers.now }
    ensures { (result ≡ true) ↔ ((k : ℕ) → extents.in_node_ranges ranges.now k ≡ true → k < count → is_among k numbers.now ≡ true) }
{
    for range in ranges {
        if !has_range(numbers, range, count) {
            return false;
        }
    }
    true
}

// Whether each node of a loop's extent is in its body.
fn is_whole(
    alloc: Global,
    graph: &CodeGraph,
    note: &LoopNote,
    header: usize,
    body: &[usize],
) -> Result<bool, NoMemory>
    requires header { slice_get graph.now.code.nodes header ≡ Some note.now.header }
    requires rising { IsRising body.now }
    ensures { IfOk result (λ whole. (whole ≡ true) ↔ IsWholeBody graph.now note.now body.now) }
{
    let count = graph.node_count();
    let extent = extent_of(alloc, graph, note, header)?;
    Ok(has_ranges(body, &extent, count))
}

// How often a loop turns at least. Where its note says nothing, its extent is not looked at.
fn trips(
    alloc: Global,
    graph: &CodeGraph,
    note: &LoopNote,
    header: usize,
    body: &[usize],
) -> Result<u32, NoMemory>
    requires header { slice_get graph.now.code.nodes header ≡ Some note.now.header }
    requires rising { IsRising body.now }
    ensures { IfOk result (λ trips. AreTripsOf graph.now note.now body.now trips) }
{
    if note.at_least == 0 {
        return Ok(0);
    }
    if is_whole(alloc, graph, note, header, body)? {
        Ok(note.at_least)
    } else {
        Ok(0)
    }
}

/// By loop, how many back edges an entry takes at least before the loop is left.
pub fn trips_of(
    alloc: Global,
    graph: &CodeGraph,
    notes: &LoopNotes,
    found: &NaturalLoops,
) -> Result<Vec<u32>, NoMemory>
    requires { AreNaturalLoops graph.now notes.now found.now }
    ensures { IfOk result (λ trips. AreTrips graph.now notes.now found.now.bodies (length notes.now) trips.items) }
{
    let mut all = Vec::new(alloc);
    for k in 0..notes.count() {
        all.push(trips(
            alloc,
            graph,
            notes.note(k),
            found.headers[k],
            &found.bodies[k],
        )?)?;
    }
    Ok(all)
}
