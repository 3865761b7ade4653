//! How a line is printed.

ghost use Rattle.std.specs.Prelude.{◌≡◌, ◌++◌, flat_map, OnOk, string_bytes};
ghost use Rattle.scale_report.specs.Texts.{address};
ghost use Rattle.worst_lines.specs.LineTexts.{head_words, times_words, cycle_words, place_text, line_text};

use crate::shown::{Line, Part};
use scale_report::Address;
use std::alloc::AllocError;
use std::fmt;
use std::fmt::Write;

// A function, or a loop with its number.
#[derive(Clone, Copy)]
struct HeadWords(Part);

impl fmt::Display for HeadWords {
    ghost use Rattle.std.specs.Prelude.{Some};
    ghost use Rattle.worst_lines.specs.LineTexts.{head_words};

    ghost output = { λ words. Some (head_words words.0) };

    fn fmt<W: fmt::Write>(&self, f: &mut fmt::Formatter<W>) -> fmt::Result {
        match self.0 {
            Part::Function { .. } => write!(f, "function "),
            Part::Loop { number, .. } => write!(f, "loop {number} "),
        }
    }
}

// How often it is called, or entered and turns.
#[derive(Clone, Copy)]
struct TimesWords(Part);

impl fmt::Display for TimesWords {
    ghost use Rattle.std.specs.Prelude.{Some};
    ghost use Rattle.worst_lines.specs.LineTexts.{times_words};

    ghost output = { λ words. Some (times_words words.0) };

    fn fmt<W: fmt::Write>(&self, f: &mut fmt::Formatter<W>) -> fmt::Result {
        match self.0 {
            Part::Function { calls } => write!(f, " calls {calls}"),
            Part::Loop { entries, turns, .. } => write!(f, " entries {entries} turns {turns}"),
        }
    }
}

// Adds a function, or a loop with its number, and its address.
fn push_head(text: &mut String, line: &Line) -> Result<(), AllocError>
    ensures { OnOk result (string_bytes text.new ≡ string_bytes text.old ++ (head_words line.now.part ++ address line.now.at)) }
{
    let head = HeadWords(line.part);
    let at = Address(line.at);
    write!(text, "{head}{at}")
}

// Adds a place, with a space before it.
fn push_place(text: &mut String, place: &Option<String>) -> Result<(), AllocError>
    ensures { OnOk result (string_bytes text.new ≡ string_bytes text.old ++ place_text place.now) }
{
    match place {
        Some(words) => {
            text.push_str(" ")?;
            text.push_str(words.as_str())
        }
        None => Ok(()),
    }
}

// Adds how often it is called or entered, and its cycles.
#[tactic(auto, unfolding(crate::specs::LineTexts::cycle_words))]
fn push_cycles(text: &mut String, line: &Line) -> Result<(), AllocError>
    ensures { OnOk result (string_bytes text.new ≡ string_bytes text.old ++ (times_words line.now.part ++ cycle_words line.now.own
        line.now.all)) }
{
    let times = TimesWords(line.part);
    let own = line.own;
    let all = line.all;
    write!(text, "{times} own {own} all {all}\n")
}

// Adds the line of a function or of a loop.
fn push_line(text: &mut String, line: &Line) -> Result<(), AllocError>
    ensures { OnOk result (string_bytes text.new ≡ string_bytes text.old ++ line_text line.now) }
{
    push_head(text, line)?;
    push_place(text, &line.place)?;
    push_cycles(text, line)?;
    Ok(())
}

/// Adds lines to a text. An error says that memory ran out.
pub fn push_lines(text: &mut String, lines: &[Line]) -> Result<(), AllocError>
    ensures { OnOk result (string_bytes text.new ≡ string_bytes text.old ++ flat_map line_text lines.now) }
{
    for line in lines {
        push_line(text, line)?;
    }
    Ok(())
}
