//! How it is printed where the worst cycles go.

ghost use Rattle.std.specs.Prelude.{codes, ◌≡◌, ◌++◌, IfOk, OnOk, string_bytes};
ghost use Rattle.scale_report.specs.Texts.{number_line};
ghost use Rattle.worst_reports.specs.ExplainedTexts.{lines_text, explained_text};

use crate::explained::Explained;
use scale_base::NoMemory;
use std::alloc::{AllocError, Global};
use std::fmt::Write;
use worst_lines::{Line, push_lines};

// Adds a line for each function and each loop, or that no walk is found.
fn push_found(text: &mut String, lines: &Option<Vec<Line>>) -> Result<(), AllocError>
    ensures { OnOk result (string_bytes text.new ≡ string_bytes text.old ++ lines_text lines.now) }
{
    match lines {
        Some(lines) => push_lines(text, lines),
        None => text.push_str("walk not found\n"),
    }
}

// Adds the line of the worst cycles.
#[tactic(auto, unfolding(scale_report::specs::Texts::number_line))]
fn push_worst(text: &mut String, worst: u64) -> Result<(), AllocError>
    ensures { OnOk result (string_bytes text.new ≡ string_bytes text.old ++ number_line (codes "worst cycles ") worst) }
{
    write!(text, "worst cycles {worst}\n")
}

/// Where the worst cycles of a program go: the worst cycles, and a line for each function and each loop on a walk that takes them. Where no such walk is found,
/// the second line says so.
pub fn explained_text(alloc: Global, explained: &Explained) -> Result<String, NoMemory>
    ensures { IfOk result (λ text. string_bytes text ≡ explained_text explained.now) }
{
    let mut text = String::new(alloc);
    push_worst(&mut text, explained.worst)?;
    push_found(&mut text, &explained.lines)?;
    Ok(text)
}
