//! The lines of runs that are drawn.

ghost use Rattle.std.specs.Prelude.{◌≡◌, ◌+◌, ◌++◌, ◌<◌, ◌≤◌, ◌^◌, IfOk, OnOk, string_bytes, length};
ghost use Rattle.scale_report.specs.Texts.{numbered_lines};
ghost use Rattle.run_pictures.specs.PictureTexts.{picture_text, run_line, run_line_head, run_line_rest};
ghost use Rattle.power_model.specs.Numbers.{RunPrice};

use crate::bars::merged_stretches;
use crate::picture::{PictureRun, RunPicture};
use power_model::Meter;
use scale_base::{End, NoMemory};
use scale_report::EndWords;
use std::alloc::{AllocError, Global};
use std::fmt::Write;

// The number of a run, how it ended, its cycles and its time.
#[tactic(auto, unfolding(crate::specs::PictureTexts::run_line_head))]
fn push_line_head(text: &mut String, number: u128, end: End, paid: &Meter) -> Result<(), AllocError>
    ensures { OnOk result (string_bytes text.new ≡ string_bytes text.old ++ run_line_head number end paid.now) }
{
    let end = EndWords(end);
    let cycles = paid.cycles;
    let time = paid.time;
    write!(text, "run {number} {end} cycles {cycles} time {time}")
}

// Its energy, its switches, and how many of its stretches are merged.
#[tactic(auto, unfolding(crate::specs::PictureTexts::run_line_rest))]
fn push_line_rest(text: &mut String, paid: &Meter, merged: u128) -> Result<(), AllocError>
    ensures { OnOk result (string_bytes text.new ≡ string_bytes text.old ++ run_line_rest paid.now merged) }
{
    let energy = paid.energy;
    let switches = paid.switches;
    write!(
        text,
        " energy {energy} switches {switches} merged {merged}\n"
    )
}

// The line of a run.
#[tactic(auto, unfolding(crate::specs::PictureTexts::run_line))]
fn push_line(text: &mut String, number: u128, run: &PictureRun) -> Result<(), AllocError>
    ensures { OnOk result (string_bytes text.new ≡ string_bytes text.old ++ run_line number run.now) }
{
    push_line_head(text, number, run.report.end, &run.report.meter)?;
    push_line_rest(text, &run.report.meter, merged_stretches(&run.bars))
}

// The lines of runs.
fn push_lines(text: &mut String, runs: &[PictureRun]) -> Result<(), AllocError>
    ensures { OnOk result (string_bytes text.new ≡ string_bytes text.old ++ numbered_lines run_line 1 runs.now) }
{
    for (index, run) in runs.iter().enumerate() {
        push_line(text, index as u128 + 1, run)?;
    }
    Ok(())
}

/// A line for each run: its number, how it ended, its cycles, time, energy and switches, and how many of its stretches are drawn merged.
pub fn picture_text(alloc: Global, picture: &RunPicture) -> Result<String, NoMemory>
    ensures { IfOk result (λ text. string_bytes text ≡ picture_text picture.now) }
{
    let mut text = String::new(alloc);
    push_lines(&mut text, &picture.runs)?;
    Ok(text)
}
