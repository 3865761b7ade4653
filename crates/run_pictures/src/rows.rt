//! The row of a run.

ghost use Rattle.std.specs.Prelude.{◌≡◌, ◌+◌, ◌++◌, ◌<◌, ◌≤◌, ◌^◌, OnOk, string_bytes, length};
ghost use Rattle.power_model.specs.Numbers.{RunPrice};
ghost use Rattle.run_pictures.specs.Places.{IsAxis, row_base};
ghost use Rattle.run_pictures.specs.PictureTexts.{band, band_text, base_line, deadline_line, end_mark, frame_text, grid_line, grid_text, late_line, late_text, name_head, name_text, note_line, note_text, numbers_line, row_chart, row_head, row_numbers, row_text};

use crate::axes::{Axis, place, row_base, row_top, tick_count, tick_place};
use crate::bars::{all_stretches, hatched_bars, merged_stretches, push_bars};
use crate::names::{EndPhrase, mark_path, push_escaped};
use crate::picture::PictureRun;
use power_model::{Levels, Meter, RunReport};
use run_stretches::BarEnd;
use scale_base::End;
use std::alloc::AllocError;
use std::fmt::Write;

// The number of a run.
#[tactic(auto, unfolding(crate::specs::PictureTexts::name_head))]
fn push_name_head(text: &mut String, y: u128, number: u128) -> Result<(), AllocError>
    ensures { OnOk result (string_bytes text.new ≡ string_bytes text.old ++ name_head y number) }
{
    write!(
        text,
        "<svg x='240' y='{y}' width='7700' height='190'><text y='140'><tspan font-weight='bold'>run {number}</tspan>  "
    )
}

// The same, and the names of its files.
fn push_name(text: &mut String, k: u64, run: &PictureRun) -> Result<(), AllocError>
    ensures { OnOk result (string_bytes text.new ≡ string_bytes text.old ++ name_text k run.now) }
{
    push_name_head(text, row_top(k) - 20, k as u128 + 1)?;
    push_escaped(text, run.image_name.as_str())?;
    text.push_str(" with input ")?;
    push_escaped(text, run.input_name.as_str())?;
    text.push_str("</text></svg>\n")
}

// By how much a run is late.
#[tactic(auto, unfolding(crate::specs::PictureTexts::late_line))]
fn push_late_line(text: &mut String, y: u128, by: u128) -> Result<(), AllocError>
    ensures { OnOk result (string_bytes text.new ≡ string_bytes text.old ++ late_line y by) }
{
    write!(
        text,
        "<text x='9360' y='{y}' text-anchor='end' font-weight='bold' fill='#a84300'>late by {by}</text>\n"
    )
}

// The same, if it is.
fn push_late(text: &mut String, k: u64, deadline: u64, time: u128) -> Result<(), AllocError>
    ensures { OnOk result (string_bytes text.new ≡ string_bytes text.old ++ late_text k deadline time) }
{
    if u128::from(deadline) < time {
        push_late_line(text, row_top(k) + 120, time - u128::from(deadline))
    } else {
        Ok(())
    }
}

// A line at a tick.
#[tactic(auto, unfolding(crate::specs::PictureTexts::grid_line))]
fn push_grid_line(text: &mut String, x: u128, y: u128) -> Result<(), AllocError>
    ensures { OnOk result (string_bytes text.new ≡ string_bytes text.old ++ grid_line x y) }
{
    write!(
        text,
        "<path d='M{x} {y}v500' stroke='#d3dae3' stroke-width='8'/>\n"
    )
}

// A band.
#[tactic(auto, unfolding(crate::specs::PictureTexts::band))]
fn push_ground(text: &mut String, y: u128) -> Result<(), AllocError>
    ensures { OnOk result (string_bytes text.new ≡ string_bytes text.old ++ band y) }
{
    write!(
        text,
        "<rect x='240' y='{y}' width='9120' height='500' fill='#f5f7fa'/>\n"
    )
}

// The lines at the ticks.
fn push_grid(text: &mut String, axis: &Axis, y: u128) -> Result<(), AllocError>
    requires { IsAxis axis.now }
    ensures { OnOk result (string_bytes text.new ≡ string_bytes text.old ++ grid_text axis.now y) }
{
    for j in 0..tick_count(axis) {
        push_grid_line(text, tick_place(axis, j), y)?;
    }
    Ok(())
}

// A band with a line at each tick.
fn push_band(text: &mut String, axis: &Axis, y: u128) -> Result<(), AllocError>
    requires { IsAxis axis.now }
    ensures { OnOk result (string_bytes text.new ≡ string_bytes text.old ++ band_text axis.now y) }
{
    push_ground(text, y)?;
    push_grid(text, axis, y)
}

/// A base.
#[tactic(auto, unfolding(crate::specs::PictureTexts::base_line))]
pub fn push_base(text: &mut String, y: u128) -> Result<(), AllocError>
    ensures { OnOk result (string_bytes text.new ≡ string_bytes text.old ++ base_line y) }
{
    write!(
        text,
        "<path d='M240 {y}H9360' stroke='#52606d' stroke-width='12'/>\n"
    )
}

// The line of the deadline.
#[tactic(auto, unfolding(crate::specs::PictureTexts::deadline_line))]
fn push_deadline(text: &mut String, x: u128, top: u128, bottom: u128) -> Result<(), AllocError>
    ensures { OnOk result (string_bytes text.new ≡ string_bytes text.old ++ deadline_line x top bottom) }
{
    write!(
        text,
        "<path d='M{x} {top}V{bottom}' stroke='#d55e00' stroke-width='24'/>\n"
    )
}

// The end of a run.
#[tactic(auto, unfolding(crate::specs::PictureTexts::end_mark))]
fn push_end(text: &mut String, x: u128, y: u128, mark: &str) -> Result<(), AllocError>
    ensures { OnOk result (string_bytes text.new ≡ string_bytes text.old ++ end_mark x y mark.now) }
{
    write!(
        text,
        "<path transform='translate({x} {y})' d='{mark}' fill='none' stroke='#1f2933' stroke-width='20'/>\n"
    )
}

// The base, the line of the deadline, and the end of the run.
fn push_frame(text: &mut String, axis: &Axis, k: u64, report: &RunReport) -> Result<(), AllocError>
    requires { IsAxis axis.now }
    ensures { OnOk result (string_bytes text.new ≡ string_bytes text.old ++ frame_text axis.now (row_base k) report.now) }
{
    let base = row_base(k);
    let deadline = place(axis.end, u128::from(axis.deadline));
    let end = place(axis.end, report.meter.time);
    push_base(text, base)?;
    push_deadline(text, deadline, base - 540, base + 40)?;
    push_end(text, end, base, mark_path(report.end))
}

// How a run ended, and its numbers.
#[tactic(auto, unfolding(crate::specs::PictureTexts::numbers_line))]
fn push_numbers(text: &mut String, y: u128, end: End, paid: &Meter) -> Result<(), AllocError>
    ensures { OnOk result (string_bytes text.new ≡ string_bytes text.old ++ numbers_line y end paid.now) }
{
    let end = EndPhrase(end);
    let cycles = paid.cycles;
    let time = paid.time;
    let energy = paid.energy;
    let switches = paid.switches;
    write!(
        text,
        "<text y='{y}'><tspan x='240'>{end}</tspan><tspan x='2800'>cycles {cycles}</tspan><tspan x='4500'>time {time}</tspan><tspan x='6200'>energy {energy}</tspan><tspan x='8000'>switches {switches}</tspan></text>\n"
    )
}

// How many stretches are merged.
#[tactic(auto, unfolding(crate::specs::PictureTexts::note_line))]
fn push_note_line(
    text: &mut String,
    y: u128,
    merged: u128,
    all: u64,
    hatched: u128,
) -> Result<(), AllocError>
    ensures { OnOk result (string_bytes text.new ≡ string_bytes text.old ++ note_line y merged all hatched) }
{
    write!(
        text,
        "<text x='240' y='{y}' fill='#52606d'>hatched: {merged} of {all} stretches, merged into {hatched} bars</text>\n"
    )
}

// The same, if any are.
fn push_note(text: &mut String, y: u128, bars: &[BarEnd]) -> Result<(), AllocError>
    ensures { OnOk result (string_bytes text.new ≡ string_bytes text.old ++ note_text y bars.now) }
{
    let merged = merged_stretches(bars);
    if merged == 0 {
        Ok(())
    } else {
        push_note_line(text, y, merged, all_stretches(bars), hatched_bars(bars))
    }
}

// The name of a run, and by how much it is late.
#[tactic(auto, unfolding(crate::specs::PictureTexts::row_head))]
fn push_row_head(text: &mut String, axis: &Axis, k: u64, run: &PictureRun) -> Result<(), AllocError>
    ensures { OnOk result (string_bytes text.new ≡ string_bytes text.old ++ row_head axis.now k run.now) }
{
    push_name(text, k, run)?;
    push_late(text, k, axis.deadline, run.report.meter.time)
}

// Its band, its bars, the line of the deadline, and its end.
#[tactic(auto, unfolding(crate::specs::PictureTexts::row_chart))]
fn push_row_chart(
    text: &mut String,
    axis: &Axis,
    levels: &Levels,
    k: u64,
    run: &PictureRun,
) -> Result<(), AllocError>
    requires { IsAxis axis.now }
    ensures { OnOk result (string_bytes text.new ≡ string_bytes text.old ++ row_chart axis.now levels.now k run.now) }
{
    push_band(text, axis, row_top(k) + 190)?;
    push_bars(text, axis, levels, row_base(k), &run.bars)?;
    push_frame(text, axis, k, &run.report)
}

// How it ended, its numbers, and how many of its stretches are merged.
#[tactic(auto, unfolding(crate::specs::PictureTexts::row_numbers))]
fn push_row_numbers(text: &mut String, k: u64, run: &PictureRun) -> Result<(), AllocError>
    ensures { OnOk result (string_bytes text.new ≡ string_bytes text.old ++ row_numbers k run.now) }
{
    push_numbers(text, row_base(k) + 170, run.report.end, &run.report.meter)?;
    push_note(text, row_base(k) + 320, &run.bars)
}

/// The row of a run, of a number from 0 on.
#[tactic(auto, unfolding(crate::specs::PictureTexts::row_text))]
pub fn push_row(
    text: &mut String,
    axis: &Axis,
    levels: &Levels,
    k: u64,
    run: &PictureRun,
) -> Result<(), AllocError>
    requires { IsAxis axis.now }
    ensures { OnOk result (string_bytes text.new ≡ string_bytes text.old ++ row_text axis.now levels.now k run.now) }
{
    push_row_head(text, axis, k, run)?;
    push_row_chart(text, axis, levels, k, run)?;
    push_row_numbers(text, k, run)
}
