//! How a survey over a list of inputs is printed.

ghost use Rattle.std.specs.Prelude.{◌≡◌, ◌++◌, map, IfOk, OnOk, string_bytes};
ghost use Rattle.power_model.specs.Survey.{line_view, survey_view};
ghost use Rattle.scale_report.specs.Texts.{input_line, most_line, numbered_lines, survey_text, totals_text};

use crate::push_number;
use power_model::{SurveyLine, SurveyReport, Totals};
use scale_base::NoMemory;
use std::alloc::{AllocError, Global};
use std::fmt;
use std::fmt::Write;

// What a scaled run took: its cycles, its time and its energy.
#[derive(Clone, Copy)]
struct ScaledWords(u64, u128, u128);

impl fmt::Display for ScaledWords {
    ghost use Rattle.std.specs.Prelude.{Some};
    ghost use Rattle.scale_report.specs.Texts.{scaled_words};

    ghost output = { λ words. Some (scaled_words words.0 words.1 words.2) };

    #[tactic(auto, unfolding(crate::specs::Texts::scaled_words))]
    fn fmt<W: fmt::Write>(&self, f: &mut fmt::Formatter<W>) -> fmt::Result {
        let cycles = self.0;
        let time = self.1;
        let energy = self.2;
        write!(f, "scaled cycles {cycles} time {time} energy {energy}")
    }
}

// Adds the line of an input.
#[tactic(auto, unfolding(crate::specs::Texts::input_line))]
fn push_input(text: &mut String, no: u128, line: &SurveyLine) -> Result<(), AllocError>
    ensures { OnOk result (string_bytes text.new ≡ string_bytes text.old ++ input_line no (line_view line.now)) }
{
    let cycles = line.meter.cycles;
    let paid = &line.scaled_meter;
    let scaled = ScaledWords(paid.cycles, paid.time, paid.energy);
    write!(text, "input {no} cycles {cycles} {scaled}\n")
}

// Adds the line of a loop.
#[tactic(auto, unfolding(crate::specs::Texts::most_line))]
fn push_most(text: &mut String, loop_no: u128, most: u32) -> Result<(), AllocError>
    ensures { OnOk result (string_bytes text.new ≡ string_bytes text.old ++ most_line loop_no most) }
{
    write!(text, "loop {loop_no} most {most}\n")
}

// A line for each input.
fn inputs_text(alloc: Global, lines: &[SurveyLine]) -> Result<String, AllocError>
    ensures { IfOk result (λ text. string_bytes text ≡ numbered_lines input_line 1 (map line_view lines.now)) }
{
    let mut text = String::new(alloc);
    for (index, line) in lines.iter().enumerate() {
        push_input(&mut text, index as u128 + 1, line)?;
    }
    Ok(text)
}

// A line for each loop.
fn loops_text(alloc: Global, most: &[u32]) -> Result<String, AllocError>
    ensures { IfOk result (λ text. string_bytes text ≡ numbered_lines most_line 1 most.now) }
{
    let mut text = String::new(alloc);
    for (index, most) in most.iter().enumerate() {
        push_most(&mut text, index as u128 + 1, *most)?;
    }
    Ok(text)
}

// A line for each total.
fn totals_text(alloc: Global, totals: &Totals) -> Result<String, AllocError>
    ensures { IfOk result (λ text. string_bytes text ≡ totals_text totals.now) }
{
    let mut text = String::new(alloc);
    push_number(&mut text, "inputs ", u128::from(totals.inputs))?;
    push_number(&mut text, "kept ", u128::from(totals.kept))?;
    push_number(&mut text, "late ", u128::from(totals.late))?;
    push_number(&mut text, "differ ", u128::from(totals.differ))?;
    push_number(&mut text, "original cycles ", totals.cycles)?;
    push_number(&mut text, "scaled cycles ", totals.scaled_cycles)?;
    push_number(&mut text, "energy ", totals.energy)?;
    push_number(&mut text, "held ", totals.held)?;
    push_number(&mut text, "switches ", totals.switches)?;
    Ok(text)
}

/// A survey: a line for each input, for each loop and for each total.
pub fn survey_text(alloc: Global, report: &SurveyReport) -> Result<String, NoMemory>
    ensures { IfOk result (λ text. string_bytes text ≡ survey_text (survey_view report.now)) }
{
    let mut text = inputs_text(alloc, &report.lines)?;
    text.push_str(loops_text(alloc, &report.most)?.as_str())?;
    text.push_str(totals_text(alloc, &report.totals)?.as_str())?;
    Ok(text)
}
