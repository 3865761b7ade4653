//! How much is drawn.

ghost use Rattle.std.specs.Prelude.{◌≡◌, ◌++◌, ◌≤◌, count_by, length, IfOk, OnOk, string_bytes, not, nat_eq};
ghost use Rattle.scale_report.specs.Texts.{number_line};
ghost use Rattle.plan_texts.specs.Counts as counts;

use plan_graphs::{DrawnBlock, DrawnEdge, Leads, PlanGraph};
use scale_base::NoMemory;
use std::alloc::{AllocError, Global};
use std::fmt::Write;

/// Whether an edge leads to a block.
fn is_to_block(leads: Leads) -> bool
    ensures { result ≡ counts.is_to_block leads }
{
    match leads {
        Leads::Block(_) => true,
        Leads::Return => false,
        Leads::Exit => false,
        Leads::Nowhere => false,
    }
}

/// How many of some edges lead to a block.
fn between(edges: &[DrawnEdge]) -> usize
    ensures { result ≡ count_by (λ e. counts.is_to_block e.leads) edges.now }
{
    let mut count = 0;
    for edge in edges {
        if is_to_block(edge.leads) {
            count += 1;
        }
    }
    count
}

/// How many of some edges have marks.
fn marked(edges: &[DrawnEdge]) -> usize
    ensures { result ≡ count_by (λ e. not (nat_eq (length e.marks.items) 0)) edges.now }
{
    let mut count = 0;
    for edge in edges {
        if edge.marks.len() != 0 {
            count += 1;
        }
    }
    count
}

/// How many edges lead from block to block.
fn edges_between(blocks: &[DrawnBlock]) -> u128
    ensures { result ≡ counts.edges_between blocks.now }
{
    let _count = blocks.len();
    let mut count: u128 = 0;
    for block in blocks {
        count += between(&block.edges) as u128;
    }
    count
}

/// How many edges have marks.
fn marked_edges(blocks: &[DrawnBlock]) -> u128
    ensures { result ≡ counts.marked_edges blocks.now }
{
    let _count = blocks.len();
    let mut count: u128 = 0;
    for block in blocks {
        count += marked(&block.edges) as u128;
    }
    count
}

// Adds a line of some words and a number.
#[tactic(auto, unfolding(scale_report::specs::Texts::number_line))]
fn push_number(text: &mut String, words: &str, number: u128) -> Result<(), AllocError>
    ensures { OnOk result (string_bytes text.new ≡ string_bytes text.old ++ number_line words.now number) }
{
    write!(text, "{words}{number}\n")
}

/// How much is drawn, a line for each number: functions, blocks, loops, edges between blocks, marked edges, and the worst cycles.
pub fn plan_text(alloc: Global, plan: &PlanGraph) -> Result<String, NoMemory>
    ensures { IfOk result (λ text. string_bytes text ≡ counts.plan_text plan.now) }
{
    let mut text = String::new(alloc);
    push_number(&mut text, "functions ", plan.functions.len() as u128)?;
    push_number(&mut text, "blocks ", plan.blocks.len() as u128)?;
    push_number(&mut text, "loops ", plan.loops.len() as u128)?;
    push_number(&mut text, "edges ", edges_between(&plan.blocks))?;
    push_number(&mut text, "marked ", marked_edges(&plan.blocks))?;
    push_number(&mut text, "worst cycles ", u128::from(plan.worst))?;
    Ok(text)
}
