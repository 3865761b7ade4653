//! The marks of an edge.

ghost use Rattle.std.specs.Prelude.{◌≡◌, ◌≤◌, ◌<◌, ◌+◌, ◌++◌, ℕ, length, OnOk, IfOk};
ghost use Rattle.cost_theory.specs.Graph.{leaves, goes_back};
ghost use Rattle.scale_sites.specs.Marks.{AreBelow, numbered, leaves_any, holds_left, is_outermost, marks_at, exits_from, resets_from, counts_from};
ghost use Rattle.scale_sites.specs.Marked.{IsMarkableGraph};

use crate::marking::Marking;
use loop_forest::LoopTree;
use scale_base::{Mark, NoMemory};
use std::alloc::Global;

/// A step from a node to another, if it leads to one, by their numbers.
#[derive(Clone, Copy, Drop)]
pub struct Way {
    pub from: usize,
    pub to: Option<usize>,
}

/// Whether a step leaves loop `k`.
fn leaves(tree: &LoopTree, k: usize, way: Way) -> bool
    requires { k < length tree.now.headers }
    ensures { result ≡ leaves (numbered tree.now) k way.from way.to }
{
    match way.to {
        None => false,
        Some(node) => tree.in_body(k, way.from) && !tree.in_body(k, node),
    }
}

/// Whether it goes back from the body of loop `k` to its header.
fn goes_back(tree: &LoopTree, k: usize, way: Way) -> bool
    requires { k < length tree.now.headers }
    ensures { result ≡ goes_back (numbered tree.now) k way.from way.to }
{
    match way.to {
        None => false,
        Some(node) => tree.in_body(k, way.from) && node == tree.header(k),
    }
}

/// Whether loop `k` holds each of these loops that a step leaves.
fn holds_left(tree: &LoopTree, k: usize, way: Way, counted: &[usize]) -> bool
    requires within { k < length tree.now.headers }
    requires below { AreBelow (length tree.now.headers) counted.now }
    ensures { result ≡ holds_left (numbered tree.now) way.from way.to k counted.now }
{
    let Some((j, rest)) = counted.split_first() else {
        return true;
    };
    (!leaves(tree, *j, way) || tree.in_body(k, tree.header(*j))) && holds_left(tree, k, way, rest)
}

/// Whether a step leaves one of these loops.
fn leaves_any(tree: &LoopTree, way: Way, counted: &[usize]) -> bool
    requires below { AreBelow (length tree.now.headers) counted.now }
    ensures { result ≡ leaves_any (numbered tree.now) way.from way.to counted.now }
{
    let Some((k, rest)) = counted.split_first() else {
        return false;
    };
    leaves(tree, *k, way) || leaves_any(tree, way, rest)
}

/// Whether loop `k` is the outermost of the counted loops that a step leaves.
fn is_outermost(marking: &Marking<'_>, k: usize, way: Way) -> bool
    requires marking { IsMarkableGraph marking.now }
    requires within { k < length marking.now.tree.now.headers }
    ensures { result ≡ is_outermost (numbered marking.now.tree.now) way.from way.to k marking.now.counted.now }
{
    leaves(marking.tree, k, way) && holds_left(marking.tree, k, way, marking.counted)
}

/// Adds the Exit of the outermost counted loop that a step leaves.
fn push_exits(
    marks: &mut Vec<Mark>,
    marking: &Marking<'_>,
    way: Way,
    counter: u16,
    rest: &[usize],
) -> Result<(), NoMemory>
    requires marking { IsMarkableGraph marking.now }
    requires counters { counter + length rest.now ≤ 600 }
    requires rest_below { AreBelow (length marking.now.tree.now.headers) rest.now }
    ensures { OnOk result (marks.new.items ≡ marks.old.items ++ exits_from (numbered marking.now.tree.now) way.from way.to
        marking.now.counted.now counter rest.now) }
{
    let Some((k, behind)) = rest.split_first() else {
        return Ok(());
    };
    if is_outermost(marking, *k, way) {
        marks.push(Mark::Exit(counter))?;
    }
    push_exits(marks, marking, way, counter + 1, behind)
}

/// Adds the Resets of the other counted loops that it leaves.
fn push_resets(
    marks: &mut Vec<Mark>,
    marking: &Marking<'_>,
    way: Way,
    counter: u16,
    rest: &[usize],
) -> Result<(), NoMemory>
    requires marking { IsMarkableGraph marking.now }
    requires counters { counter + length rest.now ≤ 600 }
    requires rest_below { AreBelow (length marking.now.tree.now.headers) rest.now }
    ensures { OnOk result (marks.new.items ≡ marks.old.items ++ resets_from (numbered marking.now.tree.now) way.from way.to
        marking.now.counted.now counter rest.now) }
{
    let Some((k, behind)) = rest.split_first() else {
        return Ok(());
    };
    if leaves(marking.tree, *k, way) && !is_outermost(marking, *k, way) {
        marks.push(Mark::Reset(counter))?;
    }
    push_resets(marks, marking, way, counter + 1, behind)
}

/// Adds the Count of the counted loop to whose header it goes back.
fn push_counts(
    marks: &mut Vec<Mark>,
    tree: &LoopTree,
    way: Way,
    counter: u16,
    rest: &[usize],
) -> Result<(), NoMemory>
    requires counters { counter + length rest.now ≤ 600 }
    requires rest_below { AreBelow (length tree.now.headers) rest.now }
    ensures { OnOk result (marks.new.items ≡ marks.old.items ++ counts_from (numbered tree.now) way.from way.to counter rest.now) }
{
    let Some((k, behind)) = rest.split_first() else {
        return Ok(());
    };
    if goes_back(tree, *k, way) {
        marks.push(Mark::Count(counter))?;
    }
    push_counts(marks, tree, way, counter + 1, behind)
}

/// The marks of a step along an edge of so much slack: Exit or Switch, then Resets, then Count.
pub fn edge_marks(
    alloc: Global,
    marking: &Marking<'_>,
    way: Way,
    branch: bool,
    slack: u64,
) -> Result<Vec<Mark>, NoMemory>
    requires { IsMarkableGraph marking.now }
    ensures { IfOk result (λ m. m.items ≡ marks_at (numbered marking.now.tree.now) marking.now.counted.now branch slack
        marking.now.min_gain way.from way.to) }
{
    let mut marks = Vec::new(alloc);
    if branch
        && (!leaves_any(marking.tree, way, marking.counted)
            && slack >= u64::from(marking.min_gain))
    {
        marks.push(Mark::Switch)?;
    }
    push_exits(&mut marks, marking, way, 2, marking.counted)?;
    push_resets(&mut marks, marking, way, 2, marking.counted)?;
    push_counts(&mut marks, marking.tree, way, 2, marking.counted)?;
    Ok(marks)
}
