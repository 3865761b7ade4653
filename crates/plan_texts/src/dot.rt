//! The file for Graphviz.

ghost use Rattle.std.specs.Prelude.{◌≡◌, ◌++◌, flat_map, IfOk, OnOk, string_bytes};
ghost use Rattle.plan_texts.specs.Dot as dot;

use crate::blocks::{push_block, push_calling_block};
use crate::clusters::{push_function, push_loop};
use crate::edges::{push_call, push_edges};
use crate::overview::{push_function_call, push_function_node};
use plan_graphs::{DrawnBlock, DrawnFunction, DrawnLoop, PlanGraph};
use scale_base::NoMemory;
use std::alloc::{AllocError, Global};
use std::fmt::Write;

/// A picture of more blocks has no arrows for calls.
const MOST_WITH_ARROWS: usize = 100;

/// A picture has no more blocks.
const MOST_BLOCKS: usize = 2000;

/// So few steps Graphviz is to take to place many blocks.
const FEW_STEPS: &str = "nslimit=\"0.05\"\n";

const GRAPH: &str =
    "digraph plan {\ngraph [bgcolor=\"#ffffff\" fontname=\"Helvetica\" fontsize=\"11\" fontcolor=\"#24292f\" labeljust=\"l\" labelloc=\"t\" nodesep=\"0.25\" ranksep=\"0.35\"]\n";

const NODES: &str =
    "node [shape=\"box\" style=\"filled\" fillcolor=\"#ffffff\" color=\"#8c959f\" fontname=\"Helvetica\" fontsize=\"10\" fontcolor=\"#24292f\" margin=\"0.12,0.06\" height=\"0\" width=\"0\"]\n";

const EDGES: &str =
    "edge [color=\"#57606a\" fontname=\"Helvetica\" fontsize=\"9\" fontcolor=\"#57606a\" arrowsize=\"0.7\"]\n";

const LEGEND: &str =
    "thick: a walk that takes them, and how often it goes there\\lorange: marked by rewrite\\l";

const KINDS: &str =
    "solid: taken, or jump (open arrow), or next (hollow arrow)\\ldashed: untaken\\ldotted: behind a call\\lviolet: call\\l\"\n";

fn push_head(text: &mut String) -> Result<(), AllocError>
    ensures { OnOk result (string_bytes text.new ≡ string_bytes text.old ++ dot.head) }
{
    text.push_str(GRAPH)?;
    text.push_str(NODES)?;
    text.push_str(EDGES)
}

#[tactic(auto, unfolding(crate::specs::Dot::title))]
fn push_title(text: &mut String, worst: u64) -> Result<(), AllocError>
    ensures { OnOk result (string_bytes text.new ≡ string_bytes text.old ++ dot.title worst) }
{
    write!(text, "label=\"worst case {worst} cycles\\l")?;
    text.push_str(LEGEND)?;
    text.push_str(KINDS)
}

fn push_functions(text: &mut String, functions: &[DrawnFunction]) -> Result<(), AllocError>
    ensures { OnOk result (string_bytes text.new ≡ string_bytes text.old ++ flat_map dot.function_line functions.now) }
{
    for function in functions {
        push_function(text, function)?;
    }
    Ok(())
}

fn push_loops(text: &mut String, loops: &[DrawnLoop]) -> Result<(), AllocError>
    ensures { OnOk result (string_bytes text.new ≡ string_bytes text.old ++ flat_map dot.loop_line loops.now) }
{
    for drawn in loops {
        push_loop(text, drawn)?;
    }
    Ok(())
}

/// Adds a block, its edges and its call.
#[tactic(auto, unfolding(crate::specs::Dot::block_lines))]
fn push_block_lines(text: &mut String, block: &DrawnBlock) -> Result<(), AllocError>
    ensures { OnOk result (string_bytes text.new ≡ string_bytes text.old ++ dot.block_lines block.now) }
{
    push_block(text, block)?;
    push_edges(text, block.range.from, &block.edges)?;
    push_call(text, block)
}

fn push_blocks(text: &mut String, blocks: &[DrawnBlock]) -> Result<(), AllocError>
    ensures { OnOk result (string_bytes text.new ≡ string_bytes text.old ++ flat_map dot.block_lines blocks.now) }
{
    for block in blocks {
        push_block_lines(text, block)?;
    }
    Ok(())
}

/// Adds a block with its call in words, and its edges.
#[tactic(auto, unfolding(crate::specs::Dot::calling_lines))]
fn push_calling_lines(
    text: &mut String,
    functions: &[DrawnFunction],
    block: &DrawnBlock,
) -> Result<(), AllocError>
    ensures { OnOk result (string_bytes text.new ≡ string_bytes text.old ++ dot.calling_lines functions.now block.now) }
{
    push_calling_block(text, functions, block)?;
    push_edges(text, block.range.from, &block.edges)
}

fn push_calling_blocks(
    text: &mut String,
    functions: &[DrawnFunction],
    blocks: &[DrawnBlock],
) -> Result<(), AllocError>
    ensures { OnOk result (string_bytes text.new ≡ string_bytes text.old ++ flat_map (dot.calling_lines functions.now) blocks.now) }
{
    for block in blocks {
        push_calling_lines(text, functions, block)?;
    }
    Ok(())
}

fn push_nodes(text: &mut String, functions: &[DrawnFunction]) -> Result<(), AllocError>
    ensures { OnOk result (string_bytes text.new ≡ string_bytes text.old ++ flat_map dot.function_node functions.now) }
{
    for function in functions {
        push_function_node(text, function)?;
    }
    Ok(())
}

fn push_calls(text: &mut String, blocks: &[DrawnBlock]) -> Result<(), AllocError>
    ensures { OnOk result (string_bytes text.new ≡ string_bytes text.old ++ flat_map dot.function_calls blocks.now) }
{
    for block in blocks {
        push_function_call(text, block)?;
    }
    Ok(())
}

fn push_clusters(text: &mut String, plan: &PlanGraph) -> Result<(), AllocError>
    ensures { OnOk result (string_bytes text.new ≡ string_bytes text.old ++ dot.clusters plan.now) }
{
    push_functions(text, &plan.functions)?;
    push_loops(text, &plan.loops)
}

fn push_small(text: &mut String, plan: &PlanGraph) -> Result<(), AllocError>
    ensures { OnOk result (string_bytes text.new ≡ string_bytes text.old ++ dot.small_picture plan.now) }
{
    push_clusters(text, plan)?;
    push_blocks(text, &plan.blocks)
}

fn push_large(text: &mut String, plan: &PlanGraph) -> Result<(), AllocError>
    ensures { OnOk result (string_bytes text.new ≡ string_bytes text.old ++ dot.large_picture plan.now) }
{
    text.push_str(FEW_STEPS)?;
    push_clusters(text, plan)?;
    push_calling_blocks(text, &plan.functions, &plan.blocks)
}

fn push_whole(text: &mut String, plan: &PlanGraph) -> Result<(), AllocError>
    ensures { OnOk result (string_bytes text.new ≡ string_bytes text.old ++ dot.whole_picture plan.now) }
{
    if plan.blocks.len() > MOST_WITH_ARROWS {
        push_large(text, plan)
    } else {
        push_small(text, plan)
    }
}

fn push_overview(text: &mut String, plan: &PlanGraph) -> Result<(), AllocError>
    ensures { OnOk result (string_bytes text.new ≡ string_bytes text.old ++ dot.overview plan.now) }
{
    push_nodes(text, &plan.functions)?;
    push_calls(text, &plan.blocks)
}

fn push_picture(text: &mut String, plan: &PlanGraph) -> Result<(), AllocError>
    ensures { OnOk result (string_bytes text.new ≡ string_bytes text.old ++ dot.picture plan.now) }
{
    if plan.blocks.len() > MOST_BLOCKS {
        push_overview(text, plan)
    } else {
        push_whole(text, plan)
    }
}

/// The picture of a drawn graph in the DOT language of Graphviz: a cluster a function, in it nested clusters of its loops, in them the basic blocks with what is left of the
/// worst case behind them, and the edges by kind, with their marks and with how often the worst walk takes them. A call is an edge; of more than 100 blocks, where such edges would keep Graphviz for minutes, it
/// is a line of the block. Of a program of more than 2,000 blocks the functions alone, with an edge for each place of a call.
pub fn plan_dot(alloc: Global, plan: &PlanGraph) -> Result<String, NoMemory>
    ensures { IfOk result (λ text. string_bytes text ≡ dot.plan_dot plan.now) }
{
    let mut text = String::new(alloc);
    push_head(&mut text)?;
    push_title(&mut text, plan.worst)?;
    push_picture(&mut text, plan)?;
    text.push_str("}\n")?;
    Ok(text)
}
