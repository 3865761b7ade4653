//! The bars of a run.

ghost use Rattle.std.specs.Prelude.{◌≡◌, ◌++◌, ◌<◌, ◌≤◌, ◌^◌, OnOk, string_bytes};
ghost use Rattle.run_pictures.specs.Places.{IsAxis};
ghost use Rattle.run_pictures.specs.PictureTexts.{all_stretches, bar_fill, bar_height, bar_rect, bar_rects, bars_text, energy_in, hatched_bars, hatched_in, is_merged, merged_in, merged_stretches, rectangle, rectangle_place, rectangle_words, stretches_in, time_in, told};
ghost use Rattle.run_stretches.specs.Stretches.{no_end};

use crate::axes::{Axis, height_of, level_at, level_height, place, shade_of};
use crate::names::colour;
use power_model::Levels;
use run_stretches::{BarEnd, NO_END};
use std::alloc::AllocError;
use std::fmt;
use std::fmt::Write;

/// A bar, which begins where another one ends.
#[derive(Clone, Copy)]
struct Bar {
    begin: BarEnd,
    end: BarEnd,
}

impl Bar {
    /// How many stretches it stands for, and what it takes.
    fn stretches(&self) -> u64
        ensures { result ≡ stretches_in self.now.begin self.now.end }
    {
        self.end.stretches.saturating_sub(self.begin.stretches)
    }

    fn time(&self) -> u128
        ensures { result ≡ time_in self.now.begin self.now.end }
    {
        self.end.time.saturating_sub(self.begin.time)
    }

    fn energy(&self) -> u128
        ensures { result ≡ energy_in self.now.begin self.now.end }
    {
        self.end.energy.saturating_sub(self.begin.energy)
    }

    /// Whether it stands for several stretches.
    fn is_merged(&self) -> bool
        ensures { result ≡ is_merged self.now.begin self.now.end }
    {
        self.stretches() > 1
    }

    /// How high it is.
    fn height(&self, levels: &Levels) -> u128
        ensures height { result ≡ bar_height levels.now self.now.begin self.now.end }
        ensures most { result ≤ 480 }
    {
        if self.is_merged() {
            let top = level_at(levels, levels.count().saturating_sub(1));
            height_of(top, self.energy(), self.time())
        } else {
            level_height(levels, self.end.level)
        }
    }

    /// How it is filled.
    fn fill(&self, levels: &Levels) -> &'static str
        ensures { result.now ≡ bar_fill levels.now self.now.begin self.now.end }
    {
        if self.is_merged() {
            "url(#merged)"
        } else {
            colour(shade_of(levels.count(), self.end.level))
        }
    }
}

// The stretches of a bar, or its level.
#[derive(Clone, Copy)]
struct BarWords(Bar);

impl fmt::Display for BarWords {
    ghost use Rattle.std.specs.Prelude.{Some};
    ghost use Rattle.run_pictures.specs.PictureTexts.{bar_words};

    ghost output = { λ words. Some (bar_words words.0.begin words.0.end) };

    fn fmt<W: fmt::Write>(&self, f: &mut fmt::Formatter<W>) -> fmt::Result {
        if self.0.is_merged() {
            let stretches = self.0.stretches();
            write!(f, "{stretches} stretches")
        } else {
            let level = self.0.end.level;
            write!(f, "level {level}")
        }
    }
}

// What a bar tells.
#[derive(Clone, Copy)]
struct BarTold(Bar);

impl fmt::Display for BarTold {
    ghost use Rattle.std.specs.Prelude.{Some};
    ghost use Rattle.run_pictures.specs.PictureTexts.{told};

    ghost output = { λ bar. Some (told bar.0.begin bar.0.end) };

    #[tactic(auto, unfolding(crate::specs::PictureTexts::told))]
    fn fmt<W: fmt::Write>(&self, f: &mut fmt::Formatter<W>) -> fmt::Result {
        let words = BarWords(self.0);
        let time = self.0.time();
        let energy = self.0.energy();
        write!(f, "{words}, time {time}, energy {energy}")
    }
}

/// Where a rectangle stands, and how large it is.
#[derive(Clone, Copy)]
struct Area {
    x: u128,
    y: u128,
    width: u128,
    height: u128,
}

// Where a rectangle stands, and how large it is.
#[tactic(auto, unfolding(crate::specs::PictureTexts::rectangle_place))]
fn push_rectangle_place(text: &mut String, area: Area) -> Result<(), AllocError>
    ensures { OnOk result (string_bytes text.new ≡ string_bytes text.old ++ rectangle_place area.x area.y area.width area.height) }
{
    let Area {
        x,
        y,
        width,
        height,
    } = area;
    write!(
        text,
        "<rect x='{x}' y='{y}' width='{width}' height='{height}'"
    )
}

// How it is filled, and what it tells.
#[tactic(auto, unfolding(crate::specs::PictureTexts::rectangle_words))]
fn push_rectangle_words(text: &mut String, fill: &str, bar: Bar) -> Result<(), AllocError>
    ensures { OnOk result (string_bytes text.new ≡ string_bytes text.old ++ rectangle_words fill.now (told bar.begin bar.end)) }
{
    let words = BarTold(bar);
    write!(text, " fill='{fill}'><title>{words}</title></rect>\n")
}

// A rectangle that tells what it stands for.
#[tactic(auto, unfolding(crate::specs::PictureTexts::rectangle))]
fn push_rectangle(text: &mut String, area: Area, fill: &str, bar: Bar) -> Result<(), AllocError>
    ensures { OnOk result (string_bytes text.new ≡ string_bytes text.old ++ rectangle area.x area.y area.width area.height fill.now
        (told bar.begin bar.end)) }
{
    push_rectangle_place(text, area)?;
    push_rectangle_words(text, fill, bar)
}

// A bar on a base.
#[tactic(auto, unfolding(crate::specs::PictureTexts::bar_rect))]
fn push_bar(
    text: &mut String,
    axis: &Axis,
    levels: &Levels,
    base: u128,
    bar: Bar,
) -> Result<(), AllocError>
    requires axis { IsAxis axis.now }
    requires base { 480 ≤ base }
    ensures { OnOk result (string_bytes text.new ≡ string_bytes text.old ++ bar_rect axis.now levels.now base bar.begin bar.end) }
{
    let x = place(axis.end, bar.begin.time);
    let height = bar.height(levels);
    let area = Area {
        x,
        y: base - height,
        width: place(axis.end, bar.end.time).saturating_sub(x),
        height,
    };
    push_rectangle(text, area, bar.fill(levels), bar)
}

// The bars, each from where the one before it ends.
fn push_rects(
    text: &mut String,
    axis: &Axis,
    levels: &Levels,
    base: u128,
    ends: &[BarEnd],
) -> Result<(), AllocError>
    requires axis { IsAxis axis.now }
    requires base { 480 ≤ base }
    ensures { OnOk result (string_bytes text.new ≡ string_bytes text.old ++ bar_rects axis.now levels.now base no_end ends.now) }
{
    let mut begin = NO_END;
    for end in ends {
        push_bar(text, axis, levels, base, Bar { begin, end: *end })?;
        begin = *end;
    }
    Ok(())
}

/// The bars of a run on a base.
pub fn push_bars(
    text: &mut String,
    axis: &Axis,
    levels: &Levels,
    base: u128,
    ends: &[BarEnd],
) -> Result<(), AllocError>
    requires axis { IsAxis axis.now }
    requires base { 480 ≤ base }
    ensures { OnOk result (string_bytes text.new ≡ string_bytes text.old ++ bars_text axis.now levels.now base ends.now) }
{
    text.push_str("<g shape-rendering='crispEdges'>\n")?;
    push_rects(text, axis, levels, base, ends)?;
    text.push_str("</g>\n")
}

/// How many stretches of a bar are merged.
fn merged_in(bar: Bar) -> u128
    ensures is { result ≡ merged_in bar.begin bar.end }
    ensures small { result < 2 ^ 64 }
{
    if bar.is_merged() {
        u128::from(bar.stretches())
    } else {
        0
    }
}

/// How many stretches are merged.
pub fn merged_stretches(ends: &[BarEnd]) -> u128
    ensures { result ≡ merged_stretches ends.now }
{
    let mut begin = NO_END;
    let mut merged = 0;
    for end in ends {
        let more = merged_in(Bar { begin, end: *end });
        merged += more;
        begin = *end;
    }
    merged
}

/// One for a bar that is merged.
fn hatched_in(bar: Bar) -> u128
    ensures is { result ≡ hatched_in bar.begin bar.end }
    ensures small { result ≤ 1 }
{
    if bar.is_merged() { 1 } else { 0 }
}

/// Into how many bars.
pub fn hatched_bars(ends: &[BarEnd]) -> u128
    ensures { result ≡ hatched_bars ends.now }
{
    let mut begin = NO_END;
    let mut hatched = 0;
    for end in ends {
        let more = hatched_in(Bar { begin, end: *end });
        hatched += more;
        begin = *end;
    }
    hatched
}

/// How many stretches the run has.
pub fn all_stretches(ends: &[BarEnd]) -> u64
    ensures { result ≡ all_stretches ends.now }
{
    match ends.last() {
        Some(end) => end.stretches,
        None => 0,
    }
}
