//! Edges between blocks, and calls.

ghost use Rattle.std.specs.Prelude.{◌≡◌, ◌++◌, flat_map, OnOk, string_bytes};
ghost use Rattle.std.specs.List.{list_any};
ghost use Rattle.plan_texts.specs.Words.{loop_words, mark_line, times_line};
ghost use Rattle.plan_texts.specs.Dot.{arrow, is_marked, is_taken, edge_style, edge_to, edge_line, call_to, call_line};

use crate::words::{arrow_head, line_color, line_style, line_width, mark_name};
use plan_graphs::{DrawnBlock, DrawnEdge, DrawnMark, Leads};
use scale_report::Address;
use std::alloc::AllocError;
use std::fmt::Write;

fn push_loop_number(text: &mut String, counted: Option<usize>) -> Result<(), AllocError>
    ensures { OnOk result (string_bytes text.new ≡ string_bytes text.old ++ loop_words counted) }
{
    match counted {
        None => Ok(()),
        Some(l) => {
            let number = l as u128 + 1;
            write!(text, " loop {number}")
        }
    }
}

#[tactic(auto, unfolding(crate::specs::Words::mark_line))]
fn push_mark(text: &mut String, mark: &DrawnMark) -> Result<(), AllocError>
    ensures { OnOk result (string_bytes text.new ≡ string_bytes text.old ++ mark_line mark.now) }
{
    text.push_str(" ")?;
    text.push_str(mark_name(mark.mark))?;
    push_loop_number(text, mark.counted)?;
    text.push_str("\\l")
}

fn push_marks(text: &mut String, marks: &[DrawnMark]) -> Result<(), AllocError>
    ensures { OnOk result (string_bytes text.new ≡ string_bytes text.old ++ flat_map mark_line marks.now) }
{
    for mark in marks {
        push_mark(text, mark)?;
    }
    Ok(())
}

fn push_times(text: &mut String, times: u64) -> Result<(), AllocError>
    ensures { OnOk result (string_bytes text.new ≡ string_bytes text.old ++ times_line times) }
{
    if times == 0 {
        return Ok(());
    }
    write!(text, " {times}x\\l")
}

/// Whether an edge has marks.
fn is_marked(edge: &DrawnEdge) -> bool
    ensures { result ≡ is_marked edge.now }
{
    edge.marks.len() > 0
}

/// Whether the walk takes an edge.
fn is_taken(edge: &DrawnEdge) -> bool
    ensures { result ≡ is_taken edge.now }
{
    edge.taken > 0
}

/// Whether it takes one of some edges.
fn any_taken(edges: &[DrawnEdge]) -> bool
    ensures { result ≡ list_any is_taken edges.now }
{
    let Some((first, rest)) = edges.split_first() else {
        return false;
    };
    is_taken(first) || any_taken(rest)
}

#[tactic(auto, unfolding(crate::specs::Dot::arrow))]
fn push_arrow(text: &mut String, from: u32, to: u32) -> Result<(), AllocError>
    ensures { OnOk result (string_bytes text.new ≡ string_bytes text.old ++ arrow from to) }
{
    let tail = Address(from);
    let head = Address(to);
    write!(text, "b{tail} -> b{head}")
}

#[tactic(auto, unfolding(crate::specs::Dot::edge_style))]
fn push_edge_style(text: &mut String, edge: &DrawnEdge) -> Result<(), AllocError>
    ensures { OnOk result (string_bytes text.new ≡ string_bytes text.old ++ edge_style edge.now) }
{
    let style = line_style(edge.edge.kind);
    let arrow = arrow_head(edge.edge.kind);
    let marked = is_marked(edge);
    let taken = is_taken(edge);
    let color = line_color(marked, taken);
    let words = line_color(marked, taken);
    let width = line_width(taken);
    write!(
        text,
        " [style=\"{style}\" arrowhead=\"{arrow}\" color=\"{color}\" fontcolor=\"{words}\" penwidth=\"{width}\" label=\""
    )
}

#[tactic(auto, unfolding(crate::specs::Dot::edge_to))]
fn push_edge_to(text: &mut String, from: u32, to: u32, edge: &DrawnEdge) -> Result<(), AllocError>
    ensures { OnOk result (string_bytes text.new ≡ string_bytes text.old ++ edge_to from to edge.now) }
{
    push_arrow(text, from, to)?;
    push_edge_style(text, edge)?;
    push_marks(text, &edge.marks)?;
    push_times(text, edge.taken)?;
    text.push_str("\"]\n")
}

/// Adds an edge, if it leads to a block.
fn push_edge(text: &mut String, from: u32, edge: &DrawnEdge) -> Result<(), AllocError>
    ensures { OnOk result (string_bytes text.new ≡ string_bytes text.old ++ edge_line from edge.now) }
{
    match edge.leads {
        Leads::Block(to) => push_edge_to(text, from, to, edge),
        Leads::Return => Ok(()),
        Leads::Exit => Ok(()),
        Leads::Nowhere => Ok(()),
    }
}

/// Adds edges of the block that begins at an address.
pub fn push_edges(text: &mut String, from: u32, edges: &[DrawnEdge]) -> Result<(), AllocError>
    ensures { OnOk result (string_bytes text.new ≡ string_bytes text.old ++ flat_map (edge_line from) edges.now) }
{
    for edge in edges {
        push_edge(text, from, edge)?;
    }
    Ok(())
}

#[tactic(auto, unfolding(crate::specs::Dot::call_to))]
fn push_call_to(text: &mut String, from: u32, to: u32, taken: bool) -> Result<(), AllocError>
    ensures { OnOk result (string_bytes text.new ≡ string_bytes text.old ++ call_to from to taken) }
{
    push_arrow(text, from, to)?;
    let width = line_width(taken);
    write!(
        text,
        " [style=\"dashed\" arrowhead=\"open\" color=\"#8250df\" penwidth=\"{width}\"]\n"
    )
}

/// Adds the call at the end of a block, if there is one.
pub fn push_call(text: &mut String, block: &DrawnBlock) -> Result<(), AllocError>
    ensures { OnOk result (string_bytes text.new ≡ string_bytes text.old ++ call_line block.now.range.from
        (list_any is_taken block.now.edges.items) block.now.call) }
{
    let taken = any_taken(&block.edges);
    match block.call {
        None => Ok(()),
        Some(call) => push_call_to(text, block.range.from, call.entry, taken),
    }
}
