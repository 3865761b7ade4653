//! The lines of a walk that takes the worst cycles.

ghost use Rattle.std.specs.Prelude.{◌≡◌, ℕ, ◌+◌, ◌<◌, length, IfOk, IfSome, OnOk};
ghost use Rattle.graph_algorithms.specs.Arcs.{number_in_place};
ghost use Rattle.flow_graph.specs.FlowGraph.{graph as graph_seen};
ghost use Rattle.loop_forest.specs.Tree.{loops};
ghost use Rattle.worst_lines.specs.Lines.{AreLines, IsPlace, IsFunctionLine, IsLoopLine};
ghost use Rattle.worst_lines.specs.Kept.{HasCounts, IsWalkedBy, course_of, AreLinesOf};

use crate::shown::{Line, Part};
use crate::sorted::{adds_up, are_in_order, order_of};
use code_names::{Names, place_text};
use flow_graph::CodeGraph;
use loop_forest::LoopTree;
use scale_base::NoMemory;
use std::alloc::Global;
use worst_walks::{WalkCounts, WholeCycles};

/// A program with what is counted along a walk that takes its worst cycles, and the names of its places.
#[derive(Clone, Copy)]
pub struct Walked<'a, 'n> {
    pub names: &'a Names<'n>,
    pub graph: &'a CodeGraph,
    pub tree: &'a LoopTree,
    pub counts: &'a WalkCounts,
    pub all: &'a WholeCycles,
}

/// The number at a place of a table.
fn number_at(numbers: &Vec<u64>, i: usize) -> u64
    requires { i < length numbers.now.items }
    ensures { result ≡ number_in_place numbers.now.items i }
{
    numbers[i]
}

/// The place of an address beside a symbol, as a text.
fn place_of(alloc: Global, names: &Names<'_>, at: u32) -> Result<Option<String>, NoMemory>
    ensures { IfOk result (λ place. IsPlace names.now.file at place) }
{
    match names.place(at) {
        Some(place) => Ok(Some(place_text(alloc, &place)?)),
        None => Ok(None),
    }
}

/// The line of function `f`, which is called.
fn function_line(alloc: Global, walked: &Walked<'_, '_>, f: usize) -> Result<Line, NoMemory>
    requires counts { HasCounts walked.now }
    requires within { f < length walked.now.graph.now.code.functions }
    requires called { 0 < number_in_place walked.now.counts.now.calls.items f }
    ensures { IfOk result (λ line. (w : ℕ → ℕ) (worst : ℕ) (is : IsWalkedBy walked.now w worst) →
        IsFunctionLine walked.now.names.now.file (graph_seen walked.now.graph.now) w (course_of walked.now w worst is) f line) }
{
    let calls = number_at(&walked.counts.calls, f);
    let at = walked.graph.node(walked.graph.entry_node(f));
    let place = place_of(alloc, walked.names, at)?;
    let own = number_at(&walked.counts.function_own, f);
    let all = number_at(&walked.all.functions, f);
    Ok(Line {
        part: Part::Function { calls },
        at,
        place,
        own,
        all,
    })
}

/// The line of loop `l`, which is entered.
fn loop_line(alloc: Global, walked: &Walked<'_, '_>, l: usize) -> Result<Line, NoMemory>
    requires counts { HasCounts walked.now }
    requires within { l < length walked.now.tree.now.headers }
    requires few { l < 4096 }
    requires entered { 0 < number_in_place walked.now.counts.now.entries.items l }
    ensures { IfOk result (λ line. (w : ℕ → ℕ) (worst : ℕ) (is : IsWalkedBy walked.now w worst) →
        IsLoopLine walked.now.names.now.file (graph_seen walked.now.graph.now) (loops walked.now.graph.now walked.now.tree.now) w
        (course_of walked.now w worst is) l line) }
{
    let number = l as u32 + 1;
    let entries = number_at(&walked.counts.entries, l);
    let turns = number_at(&walked.counts.turns, l);
    let at = walked.graph.node(walked.tree.header(l));
    let place = place_of(alloc, walked.names, at)?;
    let own = number_at(&walked.counts.loop_own, l);
    let all = number_at(&walked.all.loops, l);
    Ok(Line {
        part: Part::Loop {
            number,
            entries,
            turns,
        },
        at,
        place,
        own,
        all,
    })
}

/// Adds the line of function `f`, if it is called.
fn push_function(
    alloc: Global,
    walked: &Walked<'_, '_>,
    f: usize,
    lines: &mut Vec<Line>,
) -> Result<(), NoMemory>
    requires counts { HasCounts walked.now }
    requires within { f < length walked.now.graph.now.code.functions }
    ensures { AreLinesOf walked.now f 0 lines.old.items → OnOk result (AreLinesOf walked.now (f + 1) 0 lines.new.items) }
{
    let calls = number_at(&walked.counts.calls, f);
    if calls == 0 {
        return Ok(());
    }
    let line = function_line(alloc, walked, f)?;
    lines.push(line)?;
    Ok(())
}

/// A line for each function that is called.
fn function_lines(alloc: Global, walked: &Walked<'_, '_>) -> Result<Vec<Line>, NoMemory>
    requires { HasCounts walked.now }
    ensures { IfOk result (λ lines. AreLinesOf walked.now (length walked.now.graph.now.code.functions) 0 lines.items) }
{
    let mut lines = Vec::new(alloc);
    for f in 0..walked.graph.function_count() {
        push_function(alloc, walked, f, &mut lines)?;
    }
    Ok(lines)
}

/// Adds the line of loop `l`, if it is entered.
fn push_loop(
    alloc: Global,
    walked: &Walked<'_, '_>,
    l: usize,
    lines: &mut Vec<Line>,
) -> Result<(), NoMemory>
    requires counts { HasCounts walked.now }
    requires within { l < length walked.now.tree.now.headers }
    requires few { l < 4096 }
    ensures { (n : ℕ) → AreLinesOf walked.now n l lines.old.items → OnOk result (AreLinesOf walked.now n (l + 1) lines.new.items) }
{
    let entries = number_at(&walked.counts.entries, l);
    if entries == 0 {
        return Ok(());
    }
    let line = loop_line(alloc, walked, l)?;
    lines.push(line)?;
    Ok(())
}

/// Adds a line for each loop that is entered.
fn push_loops(alloc: Global, walked: &Walked<'_, '_>, lines: &mut Vec<Line>) -> Result<(), NoMemory>
    requires { HasCounts walked.now }
    ensures { (n : ℕ) → AreLinesOf walked.now n 0 lines.old.items → OnOk result
        (AreLinesOf walked.now n (length walked.now.tree.now.headers) lines.new.items) }
{
    for l in 0..walked.tree.loop_count() {
        push_loop(alloc, walked, l, lines)?;
    }
    Ok(())
}

/// A line for each function that is called and each loop that is entered, in order. None where their own cycles don't add up, or two have one place in the order:
/// it is tested that this doesn't happen.
pub fn walk_lines(
    alloc: Global,
    walked: &Walked<'_, '_>,
    worst: u64,
) -> Result<Option<Vec<Line>>, NoMemory>
    requires { HasCounts walked.now }
    ensures { IfOk result (λ o. IfSome o (λ lines. (w : ℕ → ℕ) → IsWalkedBy walked.now w worst →
        AreLines walked.now.names.now.file (graph_seen walked.now.graph.now) (loops walked.now.graph.now walked.now.tree.now) w worst
        lines.items)) }
{
    let mut lines = function_lines(alloc, walked)?;
    push_loops(alloc, walked, &mut lines)?;
    lines.sort_by(|a, b| order_of(a, b))?;
    if !adds_up(&lines, worst) || !are_in_order(&lines) {
        return Ok(None);
    }
    Ok(Some(lines))
}
