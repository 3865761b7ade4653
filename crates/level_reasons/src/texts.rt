//! How reasons are printed.

ghost use Rattle.std.specs.Prelude.{◌≡◌, ◌++◌, flat_map, IfOk, OnOk, string_bytes};
ghost use Rattle.scale_report.specs.Texts.{number_line};
ghost use Rattle.level_reasons.specs.ReasonTexts.{edge_line, loop_line, reasons_text};

use crate::shown::{EdgeLine, EdgeReason, LoopLine, LoopReason, Shown};
use scale_base::NoMemory;
use scale_report::{Address, kind_name};
use std::alloc::{AllocError, Global};
use std::fmt;
use std::fmt::Write;

// So many percent of those that are needed.
#[derive(Clone, Copy)]
struct PercentWords(u8, u8);

impl fmt::Display for PercentWords {
    ghost use Rattle.std.specs.Prelude.{Some};
    ghost use Rattle.level_reasons.specs.ReasonTexts.{percent_words};

    ghost output = { λ words. Some (percent_words words.0 words.1) };

    #[tactic(auto, unfolding(crate::specs::ReasonTexts::percent_words))]
    fn fmt<W: fmt::Write>(&self, f: &mut fmt::Formatter<W>) -> fmt::Result {
        let given = self.0;
        let needed = self.1;
        write!(f, "{given} of {needed} percent needed")
    }
}

// Why the level stays on an edge, or where it goes.
#[derive(Clone, Copy)]
struct EdgeWords(EdgeReason);

impl fmt::Display for EdgeWords {
    ghost use Rattle.std.specs.Prelude.{Some};
    ghost use Rattle.level_reasons.specs.ReasonTexts.{edge_words};

    ghost output = { λ words. Some (edge_words words.0) };

    fn fmt<W: fmt::Write>(&self, f: &mut fmt::Formatter<W>) -> fmt::Result {
        match self.0 {
            EdgeReason::AlreadySlowest => write!(f, "already slowest"),
            EdgeReason::FallsShort { falls, needed } => {
                write!(f, "falls {}", PercentWords(falls, needed))
            }
            EdgeReason::PaysNot { least: Some(least) } => {
                write!(f, "pays not: {least} cycles left at least")
            }
            EdgeReason::PaysNot { least: None } => write!(f, "pays not: no end ahead"),
            EdgeReason::GoesTo { level } => write!(f, "goes to level {level}"),
        }
    }
}

// What is needed of the turns of a loop.
#[derive(Clone, Copy)]
struct LoopWords(LoopReason);

impl fmt::Display for LoopWords {
    ghost use Rattle.std.specs.Prelude.{Some};
    ghost use Rattle.level_reasons.specs.ReasonTexts.{loop_words};

    ghost output = { λ words. Some (loop_words words.0) };

    fn fmt<W: fmt::Write>(&self, f: &mut fmt::Formatter<W>) -> fmt::Result {
        match self.0 {
            LoopReason::AlreadySlowest => write!(f, "already slowest"),
            LoopReason::NoWayOut => write!(f, "has no way out by a branch"),
            LoopReason::NeedsTurns { needed, bound } => {
                write!(f, "needs {needed} of {bound} turns left")
            }
            LoopReason::Never {
                bound,
                gives,
                needed,
            } => {
                let percent = PercentWords(gives, needed);
                write!(f, "never: all {bound} turns give {percent}")
            }
        }
    }
}

// Adds the line of an edge.
#[tactic(auto, unfolding(crate::specs::ReasonTexts::edge_line))]
fn push_edge(text: &mut String, line: &EdgeLine) -> Result<(), AllocError>
    ensures { OnOk result (string_bytes text.new ≡ string_bytes text.old ++ edge_line line.now) }
{
    let at = Address(line.edge.at);
    let kind = kind_name(line.edge.kind);
    let slack = line.slack;
    let words = EdgeWords(line.reason);
    write!(text, "edge {at} {kind} slack {slack} {words}\n")
}

// Adds the line of a loop.
#[tactic(auto, unfolding(crate::specs::ReasonTexts::loop_line))]
fn push_loop(text: &mut String, line: &LoopLine) -> Result<(), AllocError>
    ensures { OnOk result (string_bytes text.new ≡ string_bytes text.old ++ loop_line line.now) }
{
    let number = line.number;
    let header = Address(line.header);
    let turn = line.turn;
    let words = LoopWords(line.reason);
    write!(text, "loop {number} {header} turn {turn} {words}\n")
}

// Adds a line of some words and a number.
#[tactic(auto, unfolding(scale_report::specs::Texts::number_line))]
fn push_number(text: &mut String, words: &str, number: u128) -> Result<(), AllocError>
    ensures { OnOk result (string_bytes text.new ≡ string_bytes text.old ++ number_line words.now number) }
{
    write!(text, "{words}{number}\n")
}

// Adds a line for each edge.
fn push_edges(text: &mut String, lines: &[EdgeLine]) -> Result<(), AllocError>
    ensures { OnOk result (string_bytes text.new ≡ string_bytes text.old ++ flat_map edge_line lines.now) }
{
    for line in lines {
        push_edge(text, line)?;
    }
    Ok(())
}

// Adds a line for each loop.
fn push_loops(text: &mut String, lines: &[LoopLine]) -> Result<(), AllocError>
    ensures { OnOk result (string_bytes text.new ≡ string_bytes text.old ++ flat_map loop_line lines.now) }
{
    for line in lines {
        push_loop(text, line)?;
    }
    Ok(())
}

/// The reasons of a program: its starting level and its worst cycles, a line for each edge that has slack, and one for each loop.
pub fn reasons_text(alloc: Global, shown: &Shown) -> Result<String, NoMemory>
    ensures { IfOk result (λ text. string_bytes text ≡ reasons_text shown.now) }
{
    let mut text = String::new(alloc);
    push_number(&mut text, "start level ", u128::from(shown.start))?;
    push_number(&mut text, "worst cycles ", u128::from(shown.worst))?;
    push_edges(&mut text, &shown.edges)?;
    push_loops(&mut text, &shown.loops)?;
    Ok(text)
}
