//! How the bodies of a group of loops are entered, and how deep their nodes lie.

ghost use Rattle.std.specs.Prelude.{◌≡◌, ◌+◌, ◌<◌, ◌≤◌, ◌↔◌, ℕ, true, length, slice_index, count_ones};
ghost use Rattle.scale_base.specs.Answer.{AnswersBy};
ghost use Rattle.loop_forest.specs.Noted.{HasBackEdge};
ghost use Rattle.loop_tree.specs.Passes.{IsSmallGraph, IsReady, IsEnteredBit, AreEnteredBelow, IsGroupEntered};

use crate::natural::entries::{check_entry, entry_of};
use crate::natural::extent::{LoopGroup, NotedLoops, group_extents};
use flow_graph::CodeGraph;
use graph_algorithms::{BodySearch, GroupBodies, has_bit};
use scale_base::Stop;
use std::alloc::Global;

// Whether a body of a group is entered past its header, by an edge or at the entry of the function.
fn is_entered(graph: &CodeGraph, group: &GroupBodies, header: usize, bit: usize) -> bool
    requires graph { IsSmallGraph graph.now }
    requires header { header < length graph.now.code.nodes }
    requires size { length group.now.bodies.items ≡ length graph.now.code.nodes }
    requires bit { bit < 64 }
    ensures { (result ≡ true) ↔ IsEnteredBit graph.now group.now.bodies.items group.now.aside header bit }
{
    let entry = entry_of(graph, header);
    has_bit(group.aside, bit) || entry != header && has_bit(group.bodies[entry], bit)
}

// Counts the bodies of a group at each of their nodes.
fn add_group(depths: &mut [usize], bodies: &[u64])
    requires size { length bodies.now ≡ length depths.old }
    requires small { (i : ℕ) → i < length depths.old → slice_index depths.old i ≤ 4096 }
    ensures size { length depths.new ≡ length depths.old }
    ensures counts { (i : ℕ) → i < length depths.old → slice_index depths.new i ≡ slice_index depths.old i + count_ones
        (slice_index bodies.now i) }
{
    for node in 0..depths.len() {
        depths[node] += bodies[node].count_ones() as usize;
    }
}

/// Refuses the first loop of a group whose body is entered past its header, and otherwise counts the bodies of the group at
/// each of their nodes.
pub fn check_group(
    alloc: Global,
    search: &mut BodySearch<'_>,
    noted: &NotedLoops<'_>,
    depths: &mut [usize],
    numbers: LoopGroup,
) -> Result<(), Stop>
    requires ready { IsReady noted.now.graph.now search.old noted.now.notes.now noted.now.headers.now }
    requires back_edges { (k : ℕ) → k < length noted.now.notes.now → HasBackEdge noted.now.graph.now noted.now.notes.now k }
    requires order { numbers.first ≤ numbers.last }
    requires few { numbers.last ≤ numbers.first + 64 }
    requires within { numbers.last ≤ length noted.now.notes.now }
    requires entered { AreEnteredBelow noted.now.graph.now noted.now.notes.now numbers.first depths.old }
    ensures group { AnswersBy (λ x. x) result (IsGroupEntered noted.now.graph.now noted.now.notes.now numbers.last depths.new) }
    ensures size { length depths.new ≡ length depths.old }
    ensures same { search.new ≡ search.old }
{
    let loops = group_extents(alloc, noted, numbers)?;
    let group = search.group(alloc, &loops)?;
    for k in numbers.first..numbers.last {
        if is_entered(noted.graph, &group, noted.headers[k], k - numbers.first) {
            check_entry(alloc, search, noted, k)?;
        }
    }
    add_group(depths, &group.bodies);
    Ok(())
}
