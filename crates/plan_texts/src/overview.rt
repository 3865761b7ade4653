//! A picture of functions and calls alone.

ghost use Rattle.std.specs.Prelude.{◌≡◌, ◌++◌, sum_by, OnOk, string_bytes};
ghost use Rattle.plan_texts.specs.Dot.{function_node, function_arrow, function_calls};

use crate::clusters::{push_function_head, push_function_words};
use plan_graphs::{DrawnBlock, DrawnEdge, DrawnFunction};
use std::alloc::AllocError;
use std::fmt::Write;

/// Adds a function as one node in its cluster.
#[tactic(auto, unfolding(crate::specs::Dot::function_node))]
pub fn push_function_node(text: &mut String, function: &DrawnFunction) -> Result<(), AllocError>
    ensures { OnOk result (string_bytes text.new ≡ string_bytes text.old ++ function_node function.now) }
{
    push_function_head(text, function)?;
    let number = function.number;
    write!(text, "f{number} [label=\"")?;
    push_function_words(text, function)?;
    text.push_str("\"] }\n")
}

/// How often edges are taken together.
fn times_taken(edges: &[DrawnEdge]) -> u128
    ensures { result ≡ sum_by (λ e. e.taken) edges.now }
{
    let _count = edges.len();
    let mut times: u128 = 0;
    for edge in edges {
        times += u128::from(edge.taken);
    }
    times
}

#[tactic(auto, unfolding(crate::specs::Dot::function_arrow))]
fn push_function_arrow(
    text: &mut String,
    from: usize,
    to: usize,
    times: u128,
) -> Result<(), AllocError>
    ensures { OnOk result (string_bytes text.new ≡ string_bytes text.old ++ function_arrow from to times) }
{
    write!(text, "f{from} -> f{to} [label=\" {times}x\"]\n")
}

/// Adds the call at the end of a block, if there is one, as an edge between functions.
pub fn push_function_call(text: &mut String, block: &DrawnBlock) -> Result<(), AllocError>
    ensures { OnOk result (string_bytes text.new ≡ string_bytes text.old ++ function_calls block.now) }
{
    let times = times_taken(&block.edges);
    match block.call {
        None => Ok(()),
        Some(call) => push_function_arrow(text, block.function, call.function, times),
    }
}
