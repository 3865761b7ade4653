//! A line on standard error that tells how far a program is. Nothing is promised of it but that it is safe to run and ends, so that no wrong body is refused for
//! its answer.
//! Tests: `.ci/progress.py`, of the built programs.
#![tactic(auto)]

use run_progress::{Part, Progress};
use std::env::{self, VarError};
use std::io::{self, IsTerminal};
use std::rt::{Clock, Env};
use std::time::{Duration, Instant};

/// So many milliseconds have passed before the first line, and from one to the next.
const FIRST: u64 = 1000;

const NEXT: u64 = 500;

/// Parts that come one after another: the number of the one that began last, from 1 on, and how many they are.
#[derive(Clone, Copy)]
struct Parts {
    number: usize,
    count: usize,
}

/// A line on a terminal that is written anew from time to time, and cleared in the end. Where it can't be written, nothing is told.
#[derive(Drop)]
pub struct ProgressLine<'a, R> {
    runtime: R,
    program: &'a str,
    // When the line may be written next, unless the clock failed.
    due: Option<Instant>,
    candidates: Option<Parts>,
    inputs: Option<Parts>,
    // Of the run, as far as they are known.
    steps: u64,
    is_shown: bool,
}

// The parts where the next one has begun.
fn next_of(parts: Option<Parts>) -> Option<Parts> {
    match parts {
        Some(Parts { number, count }) => Some(Parts {
            number: number.saturating_add(1),
            count,
        }),
        None => None,
    }
}

// The time after so many milliseconds.
fn time_after(clock: &impl Clock, milliseconds: u64) -> Option<Instant> {
    match Instant::now(clock) {
        Ok(now) => now.checked_add(Duration::from_millis(milliseconds)),
        Err(_) => None,
    }
}

// Whether a time has come.
fn has_come(clock: &impl Clock, due: Option<Instant>) -> bool {
    match (due, Instant::now(clock)) {
        (Some(due), Ok(now)) => due <= now,
        _ => false,
    }
}

/// Whether a line may be written: standard error is a terminal, and the environment variable `SCALE_QUIET` isn't set.
pub fn is_wanted<R: Env + AllocGlobal>(rt: &R, standard_error: &impl IsTerminal) -> bool {
    standard_error.is_terminal() && matches!(env::var(rt, "SCALE_QUIET"), Err(VarError::NotPresent))
}

impl<'a, R: Clock + Eprint> ProgressLine<'a, R> {
    /// The line of a program that begins now.
    pub fn new(runtime: R, program: &'a str) -> ProgressLine<'a, R> {
        let due = time_after(&runtime, FIRST);
        ProgressLine {
            runtime,
            program,
            due,
            candidates: None,
            inputs: None,
            steps: 0,
            is_shown: false,
        }
    }

    fn print_parts(&self, what: &str, parts: Option<Parts>) -> io::Result<()> {
        match parts {
            Some(Parts { number, count }) => eprint!(self.runtime; "{what} {number} of {count}, "),
            None => Ok(()),
        }
    }

    // The cursor goes back to the first column, and what is left behind the text is cleared.
    fn print(&self) -> io::Result<()> {
        let program = self.program;
        let steps = self.steps;
        eprint!(self.runtime; "\r{program}: ")?;
        self.print_parts("candidate", self.candidates)?;
        self.print_parts("input", self.inputs)?;
        eprint!(self.runtime; "{steps} steps\x1b[K")
    }

    fn print_if_due(&mut self) {
        if has_come(&self.runtime, self.due) {
            let _printed = self.print();
            self.is_shown = true;
            self.due = time_after(&self.runtime, NEXT);
        }
    }
}

impl<'a, R: Clock + Eprint> Progress for ProgressLine<'a, R> {
    fn begin(&mut self, part: Part, count: usize) {
        let parts = Some(Parts { number: 0, count });
        match part {
            Part::Candidate => self.candidates = parts,
            Part::Input => self.inputs = parts,
        }
    }

    fn next(&mut self, part: Part) {
        match part {
            Part::Candidate => {
                self.candidates = next_of(self.candidates);
                self.inputs = None;
            }
            Part::Input => self.inputs = next_of(self.inputs),
        }
        self.steps = 0;
        self.print_if_due();
    }

    fn ran(&mut self, steps: u64) {
        self.steps = steps;
        self.print_if_due();
    }

    fn done(&mut self) {
        if self.is_shown {
            let _printed = eprint!(self.runtime; "\r\x1b[K");
            self.is_shown = false;
        }
    }
}
