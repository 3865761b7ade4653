//! What the comments of a draft tell of stores that are trusted, and of the words of the stack that are kept.

use crate::remarks::Remarks;
use crate::trusting::Trust;
use flow_graph::CodeGraph;
use std::alloc::AllocError;
use std::fmt::Write;
use tidy_runs::{Broken, TidyRun};

/// So many stores are told, and the words of so many functions.
const MOST_TOLD: usize = 256;

/// What is trusted in the code of a graph, and how far runs on inputs bear that out.
#[derive(Clone, Copy)]
pub struct Trusted<'a> {
    pub graph: &'a CodeGraph,
    pub trust: &'a Trust,
    pub tried: &'a [TidyRun],
}

// How far a word is below what x2 had when its function began, by its number.
fn below(number: usize) -> usize {
    number.saturating_add(1).saturating_mul(4)
}

impl Trusted<'_> {
    // Adds the place of each store.
    fn push_stores(&self, text: &mut String, remarks: &Remarks<'_>) -> Result<(), AllocError> {
        let mut told: usize = 0;
        for (at, is) in self.graph.nodes().iter().zip(&self.trust.stores) {
            if *is && told < MOST_TOLD {
                told = told.saturating_add(1);
                text.push_str("# trusted: ")?;
                remarks.push_place(text, *at)?;
                text.push_str("\n")?;
            }
        }
        if told < self.trust.count() {
            text.push_str("# trusted: more stores\n")?;
        }
        Ok(())
    }

    // Adds the words of a function that are kept, if there are any.
    fn push_function(
        &self,
        text: &mut String,
        remarks: &Remarks<'_>,
        f: usize,
    ) -> Result<(), AllocError> {
        let Some(words) = self.trust.words.get(f) else {
            return Ok(());
        };
        if f >= self.graph.function_count() || !words.iter().any(|is| *is) {
            return Ok(());
        }
        text.push_str("# kept words of ")?;
        remarks.push_place(text, self.graph.function(f))?;
        text.push_str(":")?;
        for (k, is) in words.iter().enumerate() {
            if *is {
                let below = below(k);
                write!(text, " -{below}")?;
            }
        }
        text.push_str("\n")
    }

    // Adds the store of a run that may have changed a word that is kept.
    fn push_broken(
        &self,
        text: &mut String,
        remarks: &Remarks<'_>,
        broken: Broken,
    ) -> Result<(), AllocError> {
        let Broken {
            at,
            function,
            number,
        } = broken;
        text.push_str("trusted store ")?;
        remarks.push_place(text, at)?;
        let below = below(number as usize);
        write!(text, " meets the kept word -{below}")?;
        if function < self.graph.function_count() {
            text.push_str(" of ")?;
            remarks.push_place(text, self.graph.function(function))?;
        }
        text.push_str(": from there on nothing is proved\n")
    }

    // Adds how far the run on an input bears out what is trusted.
    fn push_run(
        &self,
        text: &mut String,
        remarks: &Remarks<'_>,
        number: usize,
        run: &TidyRun,
    ) -> Result<(), AllocError> {
        let steps = run.steps;
        write!(text, "# input {number}: ")?;
        match run.broken {
            Some(broken) => {
                write!(text, "after {steps} steps ")?;
                self.push_broken(text, remarks, broken)
            }
            None => {
                let end = if run.has_ended {
                    "to its end"
                } else {
                    "so far"
                };
                write!(
                    text,
                    "no trusted store meets a kept word in {steps} steps, {end}\n"
                )
            }
        }
    }

    /// Adds the places of the stores, the kept words of functions, and how far runs bear that out, where some stores are trusted.
    pub fn push(&self, text: &mut String, remarks: &Remarks<'_>) -> Result<(), AllocError> {
        if self.trust.count() == 0 {
            return Ok(());
        }
        text.push_str(
            "# what is proved here is so of runs in which no trusted store changes a kept word\n",
        )?;
        self.push_stores(text, remarks)?;
        for f in 0..self.graph.function_count().min(MOST_TOLD) {
            self.push_function(text, remarks, f)?;
        }
        for (k, run) in self.tried.iter().enumerate() {
            self.push_run(text, remarks, k.saturating_add(1), run)?;
        }
        Ok(())
    }
}
