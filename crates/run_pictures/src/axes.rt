//! Where things stand: the axis of time, heights and shades.

ghost use Rattle.std.specs.Prelude.{◌≡◌, ◌+◌, ◌*◌, ◌/◌, ◌<◌, ◌≤◌, ◌^◌, MatchBool};
ghost use Rattle.run_pictures.specs.PictureTexts.{tick_place, ticks};
ghost use Rattle.run_pictures.specs.Places.{IsAxis, are_few, axis_of, height_of, level_height, longest, first_few, mantissa, place, row_base, row_top, shade_of, tick_number, tick_of, tick_step, unit_exponent};
ghost use Rattle.power_model.specs.Levels.{level};

use crate::picture::{PictureRun, RunPicture};
use power_model::{Level, Levels};

/// An axis of time: where it ends and where the deadline is, in time units, and the number of the step between its ticks.
#[derive(Clone, Copy)]
pub struct Axis {
    pub end: u128,
    pub deadline: u64,
    pub tick: u32,
}

/// The place of a time on an axis that ends at some time.
#[tactic(auto, unfolding(crate::specs::Places::place), using(crate::proofs::PlaceFacts::place_fits))]
pub fn place(end: u128, time: u128) -> u128
    requires some { 1 ≤ end }
    requires small { end < 2 ^ 113 }
    ensures { result ≡ place end time }
{
    240 + time.min(end) * 9120 / end
}

/// The first digit of the step of a number between ticks.
fn mantissa(k: u32) -> u128
    ensures is { result ≡ mantissa k }
    ensures some { 1 ≤ result }
    ensures few { result ≤ 5 }
{
    match k % 3 {
        0 => 1,
        1 => 2,
        _ => 5,
    }
}

/// The step of a number between ticks.
#[tactic(auto, unfolding(crate::specs::Places::tick_step))]
pub fn tick_step(k: u32) -> u128
    requires { k ≤ 110 }
    ensures step { result ≡ tick_step k }
    ensures some { 1 ≤ result }
    ensures small { result ≤ 5 * 10 ^ 36 }
{
    let first = mantissa(k);
    let tens = 10u128.pow(k / 3);
    first * tens
}

/// Whether an axis has at most eight ticks behind the one at 0 with the step of a number.
fn are_few(end: u128, k: u32) -> bool
    requires { k ≤ 110 }
    ensures is { result ≡ are_few end k }
    ensures few { MatchBool result (end / tick_step k ≤ 8) (8 < end / tick_step k) }
{
    let step = tick_step(k);
    end / step <= 8
}

/// The number of the first step with which it has, of so many.
#[tactic(auto, unfolding(crate::specs::Places::first_few))]
fn first_few(most: u32, end: u128) -> u32
    requires most { most ≤ 110 }
    requires enough { end / tick_step most ≤ 8 }
    ensures first { result ≡ first_few most end }
    ensures within { result ≤ 110 }
    ensures few { end / tick_step result ≤ 8 }
{
    for k in 0..most {
        if are_few(end, k) {
            return k;
        }
    }
    most
}

/// The number of the step for an axis.
#[tactic(auto, unfolding(crate::specs::Places::tick_of))]
fn tick_of(end: u128) -> u32
    requires { end < 2 ^ 113 }
    ensures tick { result ≡ tick_of end }
    ensures within { result ≤ 110 }
    ensures few { end / tick_step result ≤ 8 }
{
    first_few(110, end)
}

/// How many ticks an axis has behind the one at 0.
fn ticks_behind(axis: &Axis) -> u128
    requires { IsAxis axis.now }
    ensures is { result ≡ axis.now.end / tick_step axis.now.tick }
    ensures few { result ≤ 8 }
{
    let step = tick_step(axis.tick);
    axis.end / step
}

/// How many ticks an axis has.
pub fn tick_count(axis: &Axis) -> u32
    requires { IsAxis axis.now }
    ensures count { result ≡ ticks axis.now }
    ensures few { result ≤ 9 }
{
    ticks_behind(axis) as u32 + 1
}

/// The place of a tick.
pub fn tick_place(axis: &Axis, j: u32) -> u128
    requires axis { IsAxis axis.now }
    requires few { j ≤ 8 }
    ensures { result ≡ tick_place axis.now j }
{
    let step = tick_step(axis.tick);
    let time = j as u128 * step;
    place(axis.end, time)
}

/// A power of ten: 1, 10 or 100.
fn power_of_ten(k: u32) -> u128
    requires { k ≤ 2 }
    ensures is { result ≡ 10 ^ k }
    ensures small { result ≤ 100 }
{
    match k {
        0 => 1,
        1 => 10,
        _ => 100,
    }
}

/// The number at a tick, in units of the axis.
pub fn tick_number(k: u32, j: u32) -> u128
    requires { j ≤ 8 }
    ensures { result ≡ tick_number k j }
{
    let first = mantissa(k);
    let tens = power_of_ten(k / 3 % 3);
    let digits = first * tens;
    j as u128 * digits
}

/// The power of ten that is the unit of the axis, in time units.
pub fn unit_exponent(k: u32) -> u32
    ensures { result ≡ unit_exponent k }
{
    3 * (k / 9)
}

/// The time of a run.
fn time_of(run: &PictureRun) -> u128
    ensures is { result ≡ run.now.report.meter.time }
    ensures small { result < 2 ^ 113 }
{
    let meter = &run.report.meter;
    let _steps = meter.steps;
    meter.time
}

/// The latest of a time and of the ends of runs.
#[tactic(auto, using(crate::proofs::PlaceFacts::longest_more))]
fn longest(end: u128, runs: &[PictureRun]) -> u128
    requires { end < 2 ^ 113 }
    ensures longest { result ≡ longest end runs.now }
    ensures some { end ≤ result }
    ensures small { result < 2 ^ 113 }
{
    match runs.split_first() {
        Some((first, rest)) => {
            let later = end.max(time_of(first));
            longest(later, rest)
        }
        None => end,
    }
}

/// The axis of a picture.
#[tactic(auto, unfolding(crate::specs::Places::axis_of))]
pub fn axis_of(picture: &RunPicture) -> Axis
    ensures axis { result ≡ axis_of picture.now }
    ensures is { IsAxis result }
{
    let deadline = picture.power.deadline;
    let end = longest(u128::from(deadline), &picture.runs);
    Axis {
        end,
        deadline,
        tick: tick_of(end),
    }
}

/// The level of a number, or none.
pub fn level_at(levels: &Levels, i: u8) -> Level
    ensures { result ≡ level levels.now i }
{
    if i < levels.count() {
        levels.get(i)
    } else {
        Level {
            period: 0,
            energy: 0,
        }
    }
}

/// The height for so much energy in so much time.
#[tactic(auto, unfolding(crate::specs::Places::height_of))]
pub fn height_of(top: Level, energy: u128, time: u128) -> u128
    ensures height { result ≡ height_of top energy time }
    ensures most { result ≤ 480 }
{
    let energy = energy.min(1 << 86);
    let time = time.min(1 << 90).max(1);
    let full = 480 * energy;
    let scaled = full * top.period as u128;
    let unit = (top.energy as u128).max(1);
    let whole = time * unit;
    let height = scaled / whole;
    height.min(480).max(30)
}

/// The height of a level.
pub fn level_height(levels: &Levels, i: u8) -> u128
    ensures height { result ≡ level_height levels.now i }
    ensures most { result ≤ 480 }
{
    let top = level_at(levels, levels.count().saturating_sub(1));
    let level = level_at(levels, i);
    height_of(top, u128::from(level.energy), u128::from(level.period))
}

/// The shade of a level, of so many.
pub fn shade_of(levels: u8, i: u8) -> u16
    ensures { result ≡ shade_of levels i }
{
    if levels <= 1 {
        return 7;
    }
    let most = levels - 1;
    let at = i.min(most);
    at as u16 * 7 / most as u16
}

/// The top of the row of a run, and the base on which its bars stand.
pub fn row_top(k: u64) -> u128
    ensures { result ≡ row_top k }
{
    400 + 1160 * u128::from(k)
}

pub fn row_base(k: u64) -> u128
    ensures { result ≡ row_base k }
{
    row_top(k) + 690
}
