//! What the comments of a draft tell beside its loops: names and source lines of places, and what runs on inputs came to.

ghost use Rattle.std.specs.Prelude.{◌≡◌, None};

use crate::found::FoundLoop;
use code_names::{Names, PlaceWords};
use debug_lines::Lines;
use elf_image::ImageView;
use run_progress::Progress;
use scale_base::{End, NoMemory};
use scale_report::{Address, EndWords};
use std::alloc::{AllocError, Global};
use std::fmt::Write;
use turn_counts::{Ending, LoopPlace, LoopTurns, Turns, count_turns};

/// The names of an image's places; and, where they are to be told, their source lines, and how its loops turned in runs.
#[derive(Clone, Copy)]
pub struct Remarks<'a> {
    pub names: &'a Names<'a>,
    pub lines: Option<&'a Lines<'a>>,
    pub turns: Option<&'a Turns>,
}

// Where loops lie, in their order.
fn places_of<'a>(alloc: Global, loops: &'a [FoundLoop]) -> Result<Vec<LoopPlace<'a>>, NoMemory> {
    let mut places = Vec::new(alloc);
    for found in loops {
        places.push(LoopPlace {
            header: found.header,
            ranges: &found.ranges,
        })?;
    }
    Ok(places)
}

/// How loops, which ascend by their headers, turn in the runs of an image on inputs. How far it is is told.
pub fn turns_of<P: Progress>(
    alloc: Global,
    view: &ImageView<'_>,
    loops: &[FoundLoop],
    inputs: &[Vec<u8>],
    progress: &mut P,
) -> Result<Turns, NoMemory>
    requires { view.now.keyed_segment ≡ None }
{
    let places = places_of(alloc, loops)?;
    count_turns(alloc, view, &places, inputs, progress)
}

// Adds the turns of a loop in so many runs.
fn push_counts(text: &mut String, turns: LoopTurns, runs: usize) -> Result<(), AllocError> {
    let LoopTurns {
        entries,
        least,
        most,
    } = turns;
    if entries == 0 {
        return write!(text, "# not entered on {runs} inputs\n");
    }
    write!(
        text,
        "# turns {least} to {most} in {entries} entries on {runs} inputs\n"
    )
}

impl<'a> Remarks<'a> {
    /// The names alone.
    pub fn brief(self) -> Remarks<'a> {
        Remarks {
            names: self.names,
            lines: None,
            turns: None,
        }
    }

    // Adds a name and an address, or the address alone where it has no name.
    fn push_name(&self, text: &mut String, at: u32) -> Result<(), AllocError> {
        let address = Address(at);
        match self.names.place(at) {
            Some(place) => {
                let words = PlaceWords {
                    name: place.name,
                    offset: place.offset,
                };
                write!(text, "{words} ({address})")
            }
            None => write!(text, "{address}"),
        }
    }

    // Adds the source line of an address, where it is known.
    fn push_line(&self, text: &mut String, at: u32) -> Result<(), AllocError> {
        let Some(lines) = self.lines else {
            return Ok(());
        };
        match lines.place(at) {
            Some(place) => {
                let file = place.file;
                let line = place.line;
                write!(text, ", {file}:{line}")
            }
            None => Ok(()),
        }
    }

    /// Adds an address as a comment tells it: by a symbol, where there is one, and with its source line.
    pub fn push_place(&self, text: &mut String, at: u32) -> Result<(), AllocError> {
        self.push_name(text, at)?;
        self.push_line(text, at)
    }

    /// Adds the line of a loop's turns, by its number from 0 on, where there are runs.
    pub fn push_turns(&self, text: &mut String, k: usize) -> Result<(), AllocError> {
        let Some(turns) = self.turns else {
            return Ok(());
        };
        match turns.loops.get(k) {
            Some(one) if !turns.endings.is_empty() => {
                push_counts(text, *one, turns.endings.len())
            }
            _ => Ok(()),
        }
    }

    // Adds how a run on an input ended that didn't exit.
    fn push_ending(&self, text: &mut String, ending: Ending) -> Result<(), AllocError> {
        match ending {
            Ending::Exited => Ok(()),
            Ending::Trapped { trap, at } => {
                let words = EndWords(End::Trapped(trap));
                write!(text, "{words} at ")?;
                self.push_place(text, at)
            }
            Ending::OutOfSteps { at } => {
                text.push_str("out of steps at ")?;
                self.push_place(text, at)
            }
            Ending::Lost => text.push_str("a return doesn't go back to its call"),
        }
    }

    /// Adds the lines of the runs that didn't exit.
    pub fn push_endings(&self, text: &mut String) -> Result<(), AllocError> {
        let Some(turns) = self.turns else {
            return Ok(());
        };
        for (k, ending) in turns.endings.iter().enumerate() {
            if !matches!(*ending, Ending::Exited) {
                let number = k.saturating_add(1);
                write!(text, "# input {number}: ")?;
                self.push_ending(text, *ending)?;
                text.push_str("; its turns are counted up to there\n")?;
            }
        }
        Ok(())
    }
}
