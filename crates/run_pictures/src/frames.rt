//! A picture of runs: its rows, its axis and its legend.

ghost use Rattle.std.specs.Prelude.{◌≡◌, ◌+◌, ◌++◌, ◌<◌, ◌≤◌, ◌^◌, IfOk, OnOk, string_bytes, length};
ghost use Rattle.scale_report.specs.Texts.{numbered_lines};
ghost use Rattle.run_pictures.specs.Places.{IsAxis};
ghost use Rattle.run_pictures.specs.PictureTexts.{anchor_at, axis_text, deadline_label, ground, head_line, head_text, legend_head, legend_text, levels_text, level_bar, level_text, level_words, pattern_text, picture_svg, plain_unit, power_unit, row_text, svg_on, tick_label, tick_mark, tick_text, ticks_text, unit_text};

use crate::axes::{
    Axis, axis_of, level_at, level_height, place, row_top, shade_of, tick_count, tick_number,
    tick_place, unit_exponent,
};
use crate::names::colour;
use crate::picture::{PictureRun, RunPicture};
use crate::rows::{push_base, push_row};
use power_model::{Level, Levels};
use scale_base::NoMemory;
use std::alloc::{AllocError, Global};
use std::fmt::Write;

/// The title, and the pattern of merged bars.
const PATTERN: &str =
    "<title>Runs by level over time</title>\n<defs><pattern id='merged' width='36' height='36' patternUnits='userSpaceOnUse' patternTransform='rotate(45)'><rect width='36' height='36' fill='#dfe5ec'/><rect width='14' height='36' fill='#5f6c7b'/></pattern></defs>\n";

// The size.
#[tactic(auto, unfolding(crate::specs::PictureTexts::head_line))]
fn push_size(text: &mut String, pixels: u128, height: u128) -> Result<(), AllocError>
    ensures { OnOk result (string_bytes text.new ≡ string_bytes text.old ++ head_line pixels height) }
{
    write!(
        text,
        "<svg xmlns='http://www.w3.org/2000/svg' width='960' height='{pixels}' viewBox='0 0 9600 {height}' font-family='Helvetica, Arial, sans-serif' font-size='120' fill='#1f2933'>\n"
    )
}

// The title and the pattern.
#[tactic(auto, unfolding(crate::specs::PictureTexts::pattern_text))]
fn push_pattern(text: &mut String) -> Result<(), AllocError>
    ensures { OnOk result (string_bytes text.new ≡ string_bytes text.old ++ pattern_text) }
{
    text.push_str(PATTERN)
}

// The ground.
#[tactic(auto, unfolding(crate::specs::PictureTexts::ground))]
fn push_ground(text: &mut String, height: u128) -> Result<(), AllocError>
    ensures { OnOk result (string_bytes text.new ≡ string_bytes text.old ++ ground height) }
{
    write!(
        text,
        "<rect width='9600' height='{height}' fill='#ffffff'/>\n"
    )
}

// On which side it stands.
fn anchor_at(x: u128) -> &'static str
    ensures { result.now ≡ anchor_at x }
{
    if x < 4800 { "start" } else { "end" }
}

// What stands over the line of the deadline.
#[tactic(auto, unfolding(crate::specs::PictureTexts::deadline_label))]
fn push_label(text: &mut String, x: u128, deadline: u64) -> Result<(), AllocError>
    ensures { OnOk result (string_bytes text.new ≡ string_bytes text.old ++ deadline_label x deadline) }
{
    let anchor = anchor_at(x);
    write!(
        text,
        "<text x='{x}' y='260' text-anchor='{anchor}' fill='#a84300'>deadline {deadline}</text>\n"
    )
}

// The head of a picture.
fn push_head(text: &mut String, axis: &Axis, height: u128) -> Result<(), AllocError>
    requires { IsAxis axis.now }
    ensures { OnOk result (string_bytes text.new ≡ string_bytes text.old ++ head_text axis.now height) }
{
    let deadline = place(axis.end, u128::from(axis.deadline));
    push_size(text, height / 10, height)?;
    push_pattern(text)?;
    push_ground(text, height)?;
    push_label(text, deadline, axis.deadline)
}

// A tick.
#[tactic(auto, unfolding(crate::specs::PictureTexts::tick_mark))]
fn push_mark(text: &mut String, x: u128, y: u128) -> Result<(), AllocError>
    ensures { OnOk result (string_bytes text.new ≡ string_bytes text.old ++ tick_mark x y) }
{
    write!(
        text,
        "<path d='M{x} {y}v60' stroke='#52606d' stroke-width='12'/>\n"
    )
}

// Its number.
#[tactic(auto, unfolding(crate::specs::PictureTexts::tick_label))]
fn push_number(text: &mut String, x: u128, y: u128, number: u128) -> Result<(), AllocError>
    ensures { OnOk result (string_bytes text.new ≡ string_bytes text.old ++ tick_label x y number) }
{
    write!(
        text,
        "<text x='{x}' y='{y}' text-anchor='middle'>{number}</text>\n"
    )
}

// Both.
fn push_tick(text: &mut String, axis: &Axis, y: u128, j: u32) -> Result<(), AllocError>
    requires axis { IsAxis axis.now }
    requires y { y ≤ 2 ^ 90 }
    requires j { j ≤ 8 }
    ensures { OnOk result (string_bytes text.new ≡ string_bytes text.old ++ tick_text axis.now y j) }
{
    let x = tick_place(axis, j);
    push_mark(text, x, y)?;
    push_number(text, x, y + 190, tick_number(axis.tick, j))
}

// The unit of the axis, where it is a time unit.
#[tactic(auto, unfolding(crate::specs::PictureTexts::plain_unit))]
fn push_plain_unit(text: &mut String, y: u128) -> Result<(), AllocError>
    ensures { OnOk result (string_bytes text.new ≡ string_bytes text.old ++ plain_unit y) }
{
    write!(
        text,
        "<text x='4800' y='{y}' text-anchor='middle'>time in time units</text>\n"
    )
}

// The same, where it is a power of ten of them.
#[tactic(auto, unfolding(crate::specs::PictureTexts::power_unit))]
fn push_power_unit(text: &mut String, y: u128, exponent: u32) -> Result<(), AllocError>
    ensures { OnOk result (string_bytes text.new ≡ string_bytes text.old ++ power_unit y exponent) }
{
    write!(
        text,
        "<text x='4800' y='{y}' text-anchor='middle'>time in 10<tspan dy='-50' font-size='90'>{exponent}</tspan><tspan dx='40' dy='50'>time units</tspan></text>\n"
    )
}

// The unit of the axis.
fn push_unit(text: &mut String, y: u128, exponent: u32) -> Result<(), AllocError>
    ensures { OnOk result (string_bytes text.new ≡ string_bytes text.old ++ unit_text y exponent) }
{
    if exponent == 0 {
        push_plain_unit(text, y)
    } else {
        push_power_unit(text, y, exponent)
    }
}

// The ticks of the axis.
fn push_ticks(text: &mut String, axis: &Axis, y: u128) -> Result<(), AllocError>
    requires axis { IsAxis axis.now }
    requires y { y ≤ 2 ^ 90 }
    ensures { OnOk result (string_bytes text.new ≡ string_bytes text.old ++ ticks_text axis.now y) }
{
    for j in 0..tick_count(axis) {
        push_tick(text, axis, y, j)?;
    }
    Ok(())
}

// The axis.
fn push_axis(text: &mut String, axis: &Axis, y: u128) -> Result<(), AllocError>
    requires axis { IsAxis axis.now }
    requires y { y ≤ 2 ^ 90 }
    ensures { OnOk result (string_bytes text.new ≡ string_bytes text.old ++ axis_text axis.now y) }
{
    push_base(text, y)?;
    push_ticks(text, axis, y)?;
    push_unit(text, y + 370, unit_exponent(axis.tick))
}

// The bar of a level in the legend.
#[tactic(auto, unfolding(crate::specs::PictureTexts::level_bar))]
fn push_level_bar(
    text: &mut String,
    x: u128,
    y: u128,
    height: u128,
    fill: &str,
) -> Result<(), AllocError>
    requires { height ≤ y }
    ensures { OnOk result (string_bytes text.new ≡ string_bytes text.old ++ level_bar x y height fill.now) }
{
    let top = y - height;
    write!(
        text,
        "<rect x='{x}' y='{top}' width='200' height='{height}' fill='{fill}'/>\n"
    )
}

// Its number, and the time and the energy of its cycle.
#[tactic(auto, unfolding(crate::specs::PictureTexts::level_words))]
fn push_level_words(
    text: &mut String,
    x: u128,
    y: u128,
    i: u8,
    level: Level,
) -> Result<(), AllocError>
    requires { 280 ≤ y }
    ensures { OnOk result (string_bytes text.new ≡ string_bytes text.old ++ level_words x y i level.period level.energy) }
{
    let top = y - 280;
    let period = level.period;
    let energy = level.energy;
    write!(
        text,
        "<text y='{top}'><tspan x='{x}' font-weight='bold'>level {i}</tspan><tspan x='{x}' dy='140'>time {period}</tspan><tspan x='{x}' dy='140'>energy {energy}</tspan></text>\n"
    )
}

// A level in the legend.
fn push_level(text: &mut String, levels: &Levels, y: u128, i: u8) -> Result<(), AllocError>
    requires { 480 ≤ y }
    ensures { OnOk result (string_bytes text.new ≡ string_bytes text.old ++ level_text levels.now y i) }
{
    let x = 240 + 1140 * u128::from(i);
    let height = level_height(levels, i);
    push_level_bar(text, x, y, height, colour(shade_of(levels.count(), i)))?;
    push_level_words(text, x + 260, y, i, level_at(levels, i))
}

// The words over the legend.
#[tactic(auto, unfolding(crate::specs::PictureTexts::legend_head))]
fn push_legend_head(text: &mut String, y: u128) -> Result<(), AllocError>
    ensures { OnOk result (string_bytes text.new ≡ string_bytes text.old ++ legend_head y) }
{
    write!(
        text,
        "<text x='240' y='{y}' fill='#52606d'>Levels with the time and the energy of a cycle, in time units and energy units. Height is energy per time, so area is energy.</text>\n"
    )
}

// The levels of the legend.
fn push_levels(text: &mut String, levels: &Levels, y: u128) -> Result<(), AllocError>
    requires { 480 ≤ y }
    ensures { OnOk result (string_bytes text.new ≡ string_bytes text.old ++ levels_text levels.now y) }
{
    for i in 0..levels.count() {
        push_level(text, levels, y, i)?;
    }
    Ok(())
}

// The legend.
fn push_legend(text: &mut String, levels: &Levels, y: u128) -> Result<(), AllocError>
    requires { y ≤ 2 ^ 90 }
    ensures { OnOk result (string_bytes text.new ≡ string_bytes text.old ++ legend_text levels.now y) }
{
    push_legend_head(text, y)?;
    push_levels(text, levels, y + 700)
}

// The rows of runs.
fn push_rows(
    text: &mut String,
    axis: &Axis,
    levels: &Levels,
    runs: &[PictureRun],
) -> Result<(), AllocError>
    requires { IsAxis axis.now }
    ensures { OnOk result (string_bytes text.new ≡ string_bytes text.old ++ numbered_lines (row_text axis.now levels.now) 0 runs.now) }
{
    for (index, run) in runs.iter().enumerate() {
        push_row(text, axis, levels, index as u64, run)?;
    }
    Ok(())
}

// A picture on an axis.
#[tactic(auto, unfolding(crate::specs::PictureTexts::svg_on))]
fn push_picture(text: &mut String, axis: &Axis, picture: &RunPicture) -> Result<(), AllocError>
    requires { IsAxis axis.now }
    ensures { OnOk result (string_bytes text.new ≡ string_bytes text.old ++ svg_on axis.now picture.now) }
{
    let levels = &picture.power.levels;
    let bottom = row_top(picture.runs.len() as u64);
    push_head(text, axis, bottom + 1500)?;
    push_rows(text, axis, levels, &picture.runs)?;
    push_axis(text, axis, bottom)?;
    push_legend(text, levels, bottom + 640)?;
    text.push_str("</svg>\n")
}

/// The picture of runs, as an SVG image: a row for each run, with its bars over time, its end and its numbers; the axis of time, with the
/// deadline; and the levels. Only the names of files come from outside, and these are escaped.
pub fn picture_svg(alloc: Global, picture: &RunPicture) -> Result<String, NoMemory>
    ensures { IfOk result (λ text. string_bytes text ≡ picture_svg picture.now) }
{
    let axis = axis_of(picture);
    let mut text = String::new(alloc);
    push_picture(&mut text, &axis, picture)?;
    Ok(text)
}
