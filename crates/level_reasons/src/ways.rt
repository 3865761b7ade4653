//! The ways out of a loop.

ghost use Rattle.std.specs.Prelude.{◌≡◌, ◌+◌, ◌<◌, ◌^◌, true, Some, None, length, IfSome};
ghost use Rattle.cost_theory.specs.Lists.{body_of};
ghost use Rattle.flow_graph.specs.FlowGraph.{graph};
ghost use Rattle.loop_forest.specs.Tree.{loops};
ghost use Rattle.level_reasons.specs.Kept.{IsNumbered, HoldsNumbers};
ghost use Rattle.level_reasons.specs.Reasons.{ProgramNumbers, IsWayOut};
ghost use Rattle.level_reasons.specs.Ways.{IsWayAmong, IsWayOf, IsNearestKept, IsNearerOf};

use crate::edges::can_switch;
use crate::lacks::lack_of;
use crate::numbered::{Numbered, told_at};

/// A way out of a loop, in cycles: what its slack lacks for a switch to be in time, its slack, and what is left at most behind it.
#[derive(Clone, Copy, Drop)]
pub struct Way {
    pub lack: u128,
    pub slack: u64,
    pub left: u64,
}

/// Whether edge `e`, which starts in loop `l`, is a way out of it.
fn leads_out(program: &Numbered<'_>, l: usize, e: usize) -> bool
    requires program { IsNumbered program.now }
    requires within { l < length program.now.tree.now.headers }
    requires edge { e < length program.now.graph.now.code.edges }
    requires inside { (loops program.now.graph.now program.now.tree.now).inside l ((graph program.now.graph.now).source e) ≡ true }
    ensures out { result ≡ true → IsWayOut program.now.graph.now program.now.tree.now l e }
    ensures all { IsWayOut program.now.graph.now program.now.tree.now l e → result ≡ true }
{
    if !can_switch(program.graph.edge(e).kind) {
        return false;
    }
    match program.graph.target(e) {
        None => false,
        Some(k) => !program.tree.in_body(l, k),
    }
}

/// What is kept of edge `e` as a way out.
fn way_at(program: &Numbered<'_>, e: usize) -> Way
    requires program { IsNumbered program.now }
    requires above { 0 < program.now.start }
    requires edge { e < length program.now.graph.now.code.edges }
    ensures way { (n : ProgramNumbers) → HoldsNumbers program.now n → IsWayOf program.now.power.now program.now.start (n.told e) result }
    ensures small { result.lack < 2 ^ 98 }
{
    let told = told_at(program, e);
    Way {
        lack: lack_of(program.power, program.start, told),
        slack: told.slack,
        left: told.left,
    }
}

/// The nearer of two ways out: the one that lacks fewer cycles, and of two that lack as many the one with less left behind it.
fn nearer(found: Option<Way>, way: Way) -> Way
    requires found { IfSome found (λ old. old.lack < 2 ^ 98) }
    requires way { way.lack < 2 ^ 98 }
    ensures first { found ≡ None → result ≡ way }
    ensures next { (old : Way) → found ≡ Some old → IsNearerOf old way result }
    ensures small { result.lack < 2 ^ 98 }
{
    match found {
        None => way,
        Some(old) => {
            if way.lack < old.lack {
                way
            } else if way.lack == old.lack && way.left < old.left {
                way
            } else {
                old
            }
        }
    }
}

/// The nearest of some ways out of loop `l` and of those that start at node `i` of its body.
fn nearest_at(program: &Numbered<'_>, l: usize, i: usize, found: Option<Way>) -> Option<Way>
    requires program { IsNumbered program.now }
    requires above { 0 < program.now.start }
    requires within { l < length program.now.tree.now.headers }
    requires place { i < length (body_of program.now.tree.now.bodies l) }
    requires found { IfSome found (λ way. way.lack < 2 ^ 98) }
    ensures nearest { (n : ProgramNumbers) → HoldsNumbers program.now n → IsNearestKept program.now.power.now program.now.start n.told
        (IsWayAmong program.now.graph.now program.now.tree.now l i) found → IsNearestKept program.now.power.now program.now.start n.told
        (IsWayAmong program.now.graph.now program.now.tree.now l (i + 1)) result }
    ensures small { IfSome result (λ way. way.lack < 2 ^ 98) }
{
    let mut nearest = found;
    let k = program.tree.body(l)[i];
    let (first, end) = program.graph.edges_of(k);
    for e in first..end {
        if leads_out(program, l, e) {
            nearest = Some(nearer(nearest, way_at(program, e)));
        }
    }
    nearest
}

/// The nearest way out of loop `l`. None exactly where there is no way out.
pub fn nearest_way(program: &Numbered<'_>, l: usize) -> Option<Way>
    requires program { IsNumbered program.now }
    requires above { 0 < program.now.start }
    requires within { l < length program.now.tree.now.headers }
    ensures nearest { (n : ProgramNumbers) → HoldsNumbers program.now n → IsNearestKept program.now.power.now program.now.start n.told
        (IsWayOut program.now.graph.now program.now.tree.now l) result }
    ensures small { IfSome result (λ way. way.lack < 2 ^ 98) }
{
    let mut nearest = None;
    for i in 0..program.tree.body(l).len() {
        nearest = nearest_at(program, l, i, nearest);
    }
    nearest
}
