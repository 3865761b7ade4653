//! Blocks.

ghost use Rattle.std.specs.Prelude.{◌≡◌, ◌++◌, [], slice_get, flat_map, OnOk, string_bytes};
ghost use Rattle.plan_texts.specs.Words.{end_line};
ghost use Rattle.plan_texts.specs.Dot.{block_words, block_line, function_name, callee_words, call_words};

use crate::clusters::{push_closed, push_opened};
use crate::words::{end_line, push_name};
use plan_graphs::{DrawnBlock, DrawnCall, DrawnEdge, DrawnFunction};
use scale_report::Address;
use std::alloc::AllocError;
use std::fmt::Write;

/// Adds where a run leaves its function over some edges.
fn push_ends(text: &mut String, edges: &[DrawnEdge]) -> Result<(), AllocError>
    ensures { OnOk result (string_bytes text.new ≡ string_bytes text.old ++ flat_map (λ e. end_line e.leads) edges.now) }
{
    for edge in edges {
        text.push_str(end_line(edge.leads))?;
    }
    Ok(())
}

#[tactic(auto, unfolding(crate::specs::Dot::block_words))]
fn push_block_words(text: &mut String, block: &DrawnBlock) -> Result<(), AllocError>
    ensures { OnOk result (string_bytes text.new ≡ string_bytes text.old ++ block_words block.now) }
{
    let at = Address(block.range.from);
    write!(text, "b{at} [label=\"")?;
    push_name(text, &block.name)?;
    let from = Address(block.range.from);
    let to = Address(block.range.to);
    let left = block.left;
    write!(text, "{from} to {to}\\lleft {left}\\l")?;
    push_ends(text, &block.edges)
}

/// Adds a block in its clusters.
#[tactic(auto, unfolding(crate::specs::Dot::block_line))]
pub fn push_block(text: &mut String, block: &DrawnBlock) -> Result<(), AllocError>
    ensures { OnOk result (string_bytes text.new ≡ string_bytes text.old ++ block_line [] block.now) }
{
    push_opened(text, block.function, &block.around)?;
    push_block_words(text, block)?;
    text.push_str("\"] ")?;
    push_closed(text, &block.around)
}

/// Adds the name of function `f` of some functions, if it has one.
fn push_function_name(
    text: &mut String,
    functions: &[DrawnFunction],
    f: usize,
) -> Result<(), AllocError>
    ensures { OnOk result (string_bytes text.new ≡ string_bytes text.old ++ function_name (slice_get functions.now f)) }
{
    if f < functions.len() {
        push_name(text, &functions[f].name)
    } else {
        Ok(())
    }
}

#[tactic(auto, unfolding(crate::specs::Dot::callee_words))]
fn push_callee(
    text: &mut String,
    functions: &[DrawnFunction],
    call: DrawnCall,
) -> Result<(), AllocError>
    ensures { OnOk result (string_bytes text.new ≡ string_bytes text.old ++ callee_words functions.now call) }
{
    text.push_str("calls ")?;
    push_function_name(text, functions, call.function)?;
    let entry = Address(call.entry);
    write!(text, "{entry}\\l")
}

/// Adds which function is called, if one is.
fn push_call_words(
    text: &mut String,
    functions: &[DrawnFunction],
    call: Option<DrawnCall>,
) -> Result<(), AllocError>
    ensures { OnOk result (string_bytes text.new ≡ string_bytes text.old ++ call_words functions.now call) }
{
    match call {
        None => Ok(()),
        Some(call) => push_callee(text, functions, call),
    }
}

/// Adds a block in its clusters, with the function that it calls.
#[tactic(auto, unfolding(crate::specs::Dot::block_line))]
pub fn push_calling_block(
    text: &mut String,
    functions: &[DrawnFunction],
    block: &DrawnBlock,
) -> Result<(), AllocError>
    ensures { OnOk result (string_bytes text.new ≡ string_bytes text.old ++ block_line (call_words functions.now block.now.call)
        block.now) }
{
    push_opened(text, block.function, &block.around)?;
    push_block_words(text, block)?;
    push_call_words(text, functions, block.call)?;
    text.push_str("\"] ")?;
    push_closed(text, &block.around)
}
