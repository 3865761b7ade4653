//! The gaps between the spans of a body that may be filled.

ghost use Rattle.std.specs.Prelude.{◌≡◌, ◌<◌, ◌≤◌, All, length, vec_len, IfOk};
ghost use Rattle.loop_drafts.specs.Numbered.{AreNumbers};
ghost use Rattle.loop_drafts.specs.Spans.{IsSpan};

use crate::search::spans::{Span, ranges_of};
use flow_graph::CodeGraph;
use scale_base::{NoMemory, Range};
use std::alloc::Global;

/// A loop file has at most so many ranges of a loop.
const MOST_RANGES: usize = 16;

/// The gap behind a span: how many bytes it is to the next one, and the number of the span.
#[derive(Clone, Copy, PartialEq, Eq, PartialOrd, Ord, Drop)]
struct Gap {
    bytes: u32,
    number: usize,
}

// Whether an edge leads from a node to one of a part.
fn leads_into(graph: &CodeGraph, roots: &[usize], node: usize, root: usize) -> bool
    requires roots { AreNumbers (length graph.now.code.nodes) (length graph.now.code.nodes) roots.now }
    requires node { node < length graph.now.code.nodes }
{
    let (from, to) = graph.edges_of(node);
    for edge in from..to {
        if let Some(target) = graph.target(edge) {
            if roots[target] == root {
                return true;
            }
        }
    }
    false
}

// Whether the nodes between two spans of a part may lie in the ranges of its loop: no edge leads from them into the part. Nodes that are filled in before
// lead to none of its nodes either, so that those which reach it within the ranges stay the same.
fn is_free(graph: &CodeGraph, roots: &[usize], before: &Span, behind: &Span) -> bool
    requires roots { AreNumbers (length graph.now.code.nodes) (length graph.now.code.nodes) roots.now }
    requires before { IsSpan (length graph.now.code.nodes) before.now }
    requires behind { IsSpan (length graph.now.code.nodes) behind.now }
{
    let root = roots[before.last];
    for node in before.last + 1..behind.first {
        if leads_into(graph, roots, node, root) {
            return false;
        }
    }
    true
}

// The gaps that may be filled, the smallest first.
fn free_gaps(
    alloc: Global,
    graph: &CodeGraph,
    roots: &[usize],
    spans: &[Span],
) -> Result<Vec<Gap>, NoMemory>
    requires roots { AreNumbers (length graph.now.code.nodes) (length graph.now.code.nodes) roots.now }
    requires spans { All (IsSpan (length graph.now.code.nodes)) spans.now }
{
    let mut gaps = Vec::new(alloc);
    for (number, pair) in spans.windows(2).enumerate() {
        if let [before, behind] = pair {
            if is_free(graph, roots, before, behind) {
                let bytes = graph
                    .node(behind.first)
                    .saturating_sub(graph.node(before.last));
                gaps.push(Gap { bytes, number })?;
            }
        }
    }
    gaps.sort()?;
    Ok(gaps)
}

// The ranges with some of the gaps behind them filled.
fn joined(alloc: Global, ranges: &[Range], filled: &[bool]) -> Result<Vec<Range>, NoMemory>
    requires { length filled.now ≡ length ranges.now }
{
    let mut joined: Vec<Range> = Vec::new(alloc);
    let mut is_filled = false;
    for (number, range) in ranges.iter().enumerate() {
        match joined.last_mut() {
            Some(before) if is_filled => before.to = range.to,
            _ => joined.push(*range)?,
        }
        is_filled = filled[number];
    }
    Ok(joined)
}

// Puts a flag up, if there is one of that number.
fn mark(flags: &mut [bool], number: usize)
    ensures { length flags.new ≡ length flags.old }
{
    if let Some(flag) = flags.get_mut(number) {
        *flag = true;
    }
}

/// The ranges of a part by its spans: at most 16, if so many of the gaps between them may be filled that it can be. The smallest of those are.
pub fn filled_ranges(
    alloc: Global,
    graph: &CodeGraph,
    roots: &[usize],
    spans: &[Span],
) -> Result<Vec<Range>, NoMemory>
    requires roots { AreNumbers (length graph.now.code.nodes) (length graph.now.code.nodes) roots.now }
    requires spans { All (IsSpan (length graph.now.code.nodes)) spans.now }
{
    let ranges = ranges_of(alloc, graph, spans)?;
    if ranges.len() <= MOST_RANGES {
        return Ok(ranges);
    }
    let mut filled = vec![in alloc; false; ranges.len()]?;
    let gaps = free_gaps(alloc, graph, roots, spans)?;
    for gap in gaps.iter().take(ranges.len() - MOST_RANGES) {
        mark(&mut filled, gap.number);
    }
    joined(alloc, &ranges, &filled)
}
