//! Clusters of functions and of loops.

ghost use Rattle.std.specs.Prelude.{◌≡◌, ◌++◌, flat_map, OnOk, string_bytes};
ghost use Rattle.plan_texts.specs.Words.{opened_loop, opened_function, opened, closed, closed_loop};
ghost use Rattle.plan_texts.specs.Dot.{function_words, function_style, function_line, loop_words, loop_line};

use crate::words::push_name;
use plan_graphs::{DrawnFunction, DrawnLoop};
use scale_report::Address;
use std::alloc::AllocError;
use std::fmt::Write;

/// How the cluster of a function is drawn.
const FUNCTION_STYLE: &str = "style=\"filled,rounded\" fillcolor=\"#f6f8fa\" color=\"#d0d7de\" ";

fn push_opened_loop(text: &mut String, l: usize) -> Result<(), AllocError>
    ensures { OnOk result (string_bytes text.new ≡ string_bytes text.old ++ opened_loop l) }
{
    write!(text, "subgraph cluster_l{l} {{ ")
}

fn push_opened_loops(text: &mut String, around: &[usize]) -> Result<(), AllocError>
    ensures { OnOk result (string_bytes text.new ≡ string_bytes text.old ++ flat_map opened_loop around.now) }
{
    for l in around {
        push_opened_loop(text, *l)?;
    }
    Ok(())
}

/// Adds the beginning of the cluster of a function.
pub fn push_opened_function(text: &mut String, function: usize) -> Result<(), AllocError>
    ensures { OnOk result (string_bytes text.new ≡ string_bytes text.old ++ opened_function function) }
{
    write!(text, "subgraph cluster_f{function} {{ ")
}

/// Adds the beginnings of the clusters of a function and of loops, the outermost first.
#[tactic(auto, unfolding(crate::specs::Words::opened))]
pub fn push_opened(text: &mut String, function: usize, around: &[usize]) -> Result<(), AllocError>
    ensures { OnOk result (string_bytes text.new ≡ string_bytes text.old ++ opened function around.now) }
{
    push_opened_function(text, function)?;
    push_opened_loops(text, around)
}

fn push_closed_loops(text: &mut String, around: &[usize]) -> Result<(), AllocError>
    ensures { OnOk result (string_bytes text.new ≡ string_bytes text.old ++ flat_map closed_loop around.now) }
{
    for _l in around {
        text.push_str("} ")?;
    }
    Ok(())
}

/// Adds the ends of the clusters of loops and of their function.
#[tactic(auto, unfolding(crate::specs::Words::closed))]
pub fn push_closed(text: &mut String, around: &[usize]) -> Result<(), AllocError>
    ensures { OnOk result (string_bytes text.new ≡ string_bytes text.old ++ closed around.now) }
{
    push_closed_loops(text, around)?;
    text.push_str("}\n")
}

/// Adds the words of a function.
#[tactic(auto, unfolding(crate::specs::Dot::function_words))]
pub fn push_function_words(text: &mut String, function: &DrawnFunction) -> Result<(), AllocError>
    ensures { OnOk result (string_bytes text.new ≡ string_bytes text.old ++ function_words function.now) }
{
    push_name(text, &function.name)?;
    let entry = Address(function.entry);
    let worst = function.worst;
    let calls = function.calls;
    write!(text, "{entry}\\lworst {worst} cycles, called {calls}x\\l")
}

/// Adds the beginning of a function's cluster, and how it is drawn.
pub fn push_function_head(text: &mut String, function: &DrawnFunction) -> Result<(), AllocError>
    ensures { OnOk result (string_bytes text.new ≡ string_bytes text.old ++ (opened_function function.now.number ++ function_style)) }
{
    push_opened_function(text, function.number)?;
    text.push_str(FUNCTION_STYLE)
}

/// Adds a function's cluster.
#[tactic(auto, unfolding(crate::specs::Dot::function_line))]
pub fn push_function(text: &mut String, function: &DrawnFunction) -> Result<(), AllocError>
    ensures { OnOk result (string_bytes text.new ≡ string_bytes text.old ++ function_line function.now) }
{
    push_function_head(text, function)?;
    text.push_str("label=\"")?;
    push_function_words(text, function)?;
    text.push_str("\" }\n")
}

#[tactic(auto, unfolding(crate::specs::Dot::loop_words))]
fn push_loop_words(text: &mut String, drawn: &DrawnLoop) -> Result<(), AllocError>
    ensures { OnOk result (string_bytes text.new ≡ string_bytes text.old ++ loop_words drawn.now) }
{
    let number = drawn.number as u128 + 1;
    let header = Address(drawn.header);
    let bound = drawn.bound;
    let turn = drawn.turn;
    write!(
        text,
        "style=\"filled,rounded\" fillcolor=\"#0969da14\" color=\"#0969da55\" label=\"loop {number} at {header}\\lbound {bound}, turn {turn} cycles\\l\" "
    )
}

/// Adds a loop's cluster.
#[tactic(auto, unfolding(crate::specs::Dot::loop_line))]
pub fn push_loop(text: &mut String, drawn: &DrawnLoop) -> Result<(), AllocError>
    ensures { OnOk result (string_bytes text.new ≡ string_bytes text.old ++ loop_line drawn.now) }
{
    push_opened(text, drawn.function, &drawn.around)?;
    push_loop_words(text, drawn)?;
    push_closed(text, &drawn.around)
}
