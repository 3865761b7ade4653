//! The runs that are looked at: those of the original on some inputs and on ones that are derived from these, and random walks.

use crate::comparing::DerivedRun;
use crate::runs::{RunKind, RunMarks, RunWeight, Watched};
use crate::sums::{Sums, weight_of};
use crate::tracing::EdgeTrace;
use crate::walking::{HABITS, WALKS, WalkPlan, walked};
use elf_image::ImageView;
use power_model::Power;
use run_progress::{Part, Progress};
use scale_base::{NoMemory, Stop};
use speed_sim::{End, ImageRun, start_of, watched_with_progress};
use std::alloc::Global;

/// How many shares a run on an input has, where each walk has as many as there are such runs: three times as many as there are walks.
const SHARES: u64 = 33;

/// A program with the graph that walks go over, and the inputs on which it runs: those at some places, and derived ones.
#[derive(Drop)]
pub struct Runs<'a> {
    pub view: &'a ImageView<'a>,
    pub power: &'a Power,
    pub plan: &'a WalkPlan<'a>,
    pub inputs: &'a [Vec<u8>],
    pub places: &'a [usize],
    pub derived: &'a [DerivedRun],
}

impl Runs<'_> {
    /// Traces the run on an input. Its cycles, if it exits. How far it is is told.
    fn traced<P: Progress>(
        &self,
        alloc: Global,
        input: &[u8],
        trace: &mut EdgeTrace,
        progress: &mut P,
    ) -> Result<Option<u64>, Stop> {
        let view = self.view;
        let power = self.power;
        let levels = power.levels.count();
        if levels == 0 {
            return Ok(None);
        }
        let start = start_of(levels, view.keyed())?;
        trace.begin();
        let given = ImageRun { view, power, start };
        let report = watched_with_progress(alloc, &given, input, trace, progress)?;
        match report.end {
            End::Exited(_) => Ok(Some(report.meter.cycles)),
            _ => Ok(None),
        }
    }

    /// The same for the input at a place.
    fn traced_at<P: Progress>(
        &self,
        alloc: Global,
        k: usize,
        trace: &mut EdgeTrace,
        progress: &mut P,
    ) -> Result<Option<u64>, Stop> {
        progress.next(Part::Input);
        if k < self.inputs.len() {
            self.traced(alloc, &self.inputs[k], trace, progress)
        } else {
            Ok(None)
        }
    }

    /// The weight of a run on a derived input of so many cycles: all of them together have as many shares as all walks, where each walk has so many.
    fn derived_weight(&self, shares: u64, cycles: u64) -> u64 {
        let all = shares.saturating_mul(WALKS as u64);
        let runs = self.derived.len() as u64;
        weight_of(all, cycles).checked_div(runs).unwrap_or(0)
    }

    /// Adds what the runs on derived inputs do at the edges, where each walk has so many shares. How far they are is told.
    fn add_derived<P: Progress>(
        &self,
        alloc: Global,
        shares: u64,
        sums: &mut Sums,
        trace: &mut EdgeTrace,
        progress: &mut P,
    ) -> Result<(), Stop> {
        progress.begin(Part::Input, self.derived.len());
        for run in self.derived {
            progress.next(Part::Input);
            if let Some(cycles) = self.traced(alloc, &run.input, trace, progress)? {
                sums.add(trace, cycles, self.derived_weight(shares, cycles));
            }
        }
        Ok(())
    }

    /// Adds what the walks do at the edges, where each has so many shares.
    fn add_walks(
        &self,
        alloc: Global,
        shares: u64,
        sums: &mut Sums,
        trace: &mut EdgeTrace,
    ) -> Result<(), NoMemory> {
        for number in 0..WALKS {
            if let Some(cycles) = walked(alloc, self.plan, number, trace)? {
                sums.add(trace, cycles, weight_of(shares, cycles));
            }
        }
        Ok(())
    }

    /// What the runs do at so many edges, in all. How far they are is told.
    pub fn sums<P: Progress>(
        &self,
        alloc: Global,
        edges: usize,
        trace: &mut EdgeTrace,
        progress: &mut P,
    ) -> Result<Sums, Stop> {
        let mut sums = Sums::new(alloc, edges)?;
        progress.begin(Part::Input, self.places.len());
        for k in self.places {
            if let Some(cycles) = self.traced_at(alloc, *k, trace, progress)? {
                sums.add(trace, cycles, weight_of(SHARES, cycles));
            }
        }
        let shares = sums.runs().max(1);
        self.add_derived(alloc, shares, &mut sums, trace, progress)?;
        self.add_walks(alloc, shares, &mut sums, trace)?;
        Ok(sums)
    }

    /// Adds what the runs on derived inputs do at the candidates, where each walk has so many shares. How far they are is told.
    fn add_derived_runs<P: Progress>(
        &self,
        alloc: Global,
        watched: &Watched<'_>,
        shares: u64,
        runs: &mut Vec<RunMarks>,
        trace: &mut EdgeTrace,
        progress: &mut P,
    ) -> Result<(), Stop> {
        progress.begin(Part::Input, self.derived.len());
        for derived in self.derived {
            progress.next(Part::Input);
            if let Some(cycles) = self.traced(alloc, &derived.input, trace, progress)? {
                let run = RunWeight {
                    cycles,
                    weight: self.derived_weight(shares, cycles),
                    kind: RunKind::Derived,
                };
                runs.push(RunMarks::new(alloc, watched, trace, run)?)?;
            }
        }
        Ok(())
    }

    /// Adds what the walks do at the candidates: each has so many shares, and those with habits have no weight.
    fn add_walk_runs(
        &self,
        alloc: Global,
        watched: &Watched<'_>,
        shares: u64,
        runs: &mut Vec<RunMarks>,
        trace: &mut EdgeTrace,
    ) -> Result<(), NoMemory> {
        for number in 0..WALKS + HABITS {
            if let Some(cycles) = walked(alloc, self.plan, number, trace)? {
                let own = if number < WALKS { shares } else { 0 };
                let run = RunWeight {
                    cycles,
                    weight: weight_of(own, cycles),
                    kind: RunKind::Walk,
                };
                runs.push(RunMarks::new(alloc, watched, trace, run)?)?;
            }
        }
        Ok(())
    }

    /// What each run does at the candidates. How far they are is told.
    pub fn marks<P: Progress>(
        &self,
        alloc: Global,
        watched: &Watched<'_>,
        trace: &mut EdgeTrace,
        progress: &mut P,
    ) -> Result<Vec<RunMarks>, Stop> {
        let mut runs = Vec::new(alloc);
        progress.begin(Part::Input, self.places.len());
        for k in self.places {
            if let Some(cycles) = self.traced_at(alloc, *k, trace, progress)? {
                let run = RunWeight {
                    cycles,
                    weight: weight_of(SHARES, cycles),
                    kind: RunKind::Input,
                };
                runs.push(RunMarks::new(alloc, watched, trace, run)?)?;
            }
        }
        let shares = (runs.len() as u64).max(1);
        self.add_derived_runs(alloc, watched, shares, &mut runs, trace, progress)?;
        self.add_walk_runs(alloc, watched, shares, &mut runs, trace)?;
        Ok(runs)
    }
}
