//! The loops whose tallies are of use.

ghost use Rattle.std.specs.Prelude.{◌≡◌, ◌==◌, ◌<◌, ◌^◌, ℕ, Bool, length, slice_get, Some, IfOk, IfSome};
ghost use Rattle.loop_forest.specs.Tree.{IsLoopTree, loops};
ghost use Rattle.scale_base.specs.declared.fragments.Mark.TheVariants as marks;
ghost use Rattle.scale_sites.specs.Sites.{marks_at_edge};
ghost use Rattle.marked_images.specs.Markings.{HasMarking, test_of};
ghost use Rattle.paced_images.specs.Useful as useful;

use flow_graph::CodeGraph;
use level_tables::{EdgeNumbers, tally_from_within, tally_shift};
use loop_forest::LoopTree;
use marked_images::{Marked, told_at};
use power_model::Power;
use scale_base::{Mark, NoMemory};
use std::alloc::Global;

/// Whether the header of loop `l` is at an address.
fn is_header(graph: &CodeGraph, tree: &LoopTree, l: usize, header: u32) -> bool
    requires tree { (extent : ℕ → ℕ → Bool) × IsLoopTree graph.now extent tree.now }
    requires within { l < length tree.now.headers }
    ensures { result ≡ ((loops graph.now tree.now).header l == header) }
{
    graph.node(tree.header(l)) == header
}

/// Whether a tally with these numbers comes due: from a count that the loop's bound allows on, every level goes to the lowest one, which the
/// starting level isn't.
fn comes_due(power: &Power, marked: &Marked, bound: u32, iteration: u64, told: &EdgeNumbers) -> bool
    requires { IfSome told.now.least (λ z. z < 2 ^ 90) }
    ensures { result ≡ useful.comes_due power.now (test_of power.now marked.now.marking) marked.now.start bound iteration told.now }
{
    let from = tally_from_within(power, &marked.marking.budgets, bound, iteration, told);
    marked.start > 0 && u32::from(from) <= bound >> tally_shift(bound)
}

/// Whether a tally on edge `e` is that of the loop at an address, and comes due.
fn is_due(power: &Power, marked: &Marked, header: u32, e: usize, counter: u16) -> bool
    requires marking { HasMarking power.now marked.now.graph marked.now.tree marked.now.marking }
    requires edge { e < length marked.now.graph.code.edges }
    requires mark { (i : ℕ) × (slice_get (marks_at_edge marked.now.marking.sites e) i ≡ Some (marks.Tally counter)) }
    ensures { useful.IsDueBy power.now marked.now header e counter result }
{
    let graph = &marked.graph;
    let tree = &marked.tree;
    let marking = &marked.marking;
    let l = *marking.counters.get(usize::from(counter - 2));
    let bound = tree.bound(l);
    let iteration = marking.worst.iteration(l);
    let told = told_at(power, marked, e);
    let due = comes_due(power, marked, bound, iteration, &told);
    is_header(graph, tree, l, header) && due
}

/// Whether edge `e` has the tally of the loop at an address, and that comes due. A tally is the first mark of its edge.
fn is_due_at(power: &Power, marked: &Marked, header: u32, e: usize) -> bool
    requires marking { HasMarking power.now marked.now.graph marked.now.tree marked.now.marking }
    requires edge { e < length marked.now.graph.code.edges }
    ensures { useful.IsDueAt power.now marked.now header e result }
{
    match marked.marking.sites.marks(e).first() {
        Some(mark) => match *mark {
            Mark::Tally(counter) => is_due(power, marked, header, e, counter),
            Mark::Switch => false,
            Mark::Exit(_) => false,
            Mark::Reset(_) => false,
            Mark::Count(_) => false,
            Mark::Lowest => false,
        },
        None => false,
    }
}

/// Whether some edge has such a tally.
fn is_useful_loop(power: &Power, marked: &Marked, header: u32) -> bool
    requires { HasMarking power.now marked.now.graph marked.now.tree marked.now.marking }
    ensures { useful.IsLoopUseful power.now marked.now header result }
{
    for e in 0..marked.graph.edge_count() {
        if is_due_at(power, marked, header, e) {
            return true;
        }
    }
    false
}

/// The tallied loops that are of use, in their order, by the addresses of their headers.
pub fn kept_loops(
    alloc: Global,
    power: &Power,
    marked: &Marked,
    tallied: &[u32],
) -> Result<Vec<u32>, NoMemory>
    requires { HasMarking power.now marked.now.graph marked.now.tree marked.now.marking }
    ensures { IfOk result (λ kept. useful.AreLoopsKeptBy power.now marked.now tallied.now kept.items) }
{
    let mut kept = Vec::new(alloc);
    for header in tallied {
        if is_useful_loop(power, marked, *header) {
            kept.push(*header)?;
        }
    }
    Ok(kept)
}
