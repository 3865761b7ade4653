//! Whether the image that is fitted of a version takes much more on some input than the image of its program at one level.

use crate::fits::Fit;
use crate::goal::FitGoal;
use run_progress::{Part, Progress};
use run_traces::{ComparedImage, DerivedRun, ProgramInputs, derived_runs};
use scale_base::{NoMemory, Stop};
use std::alloc::Global;

/// The runs of a program at one level on the inputs that count and on derived ones: by input its cycles, the derived runs, and the energy units of a cycle.
#[derive(Drop)]
pub struct HeldRuns<'a> {
    machine: &'a [u8],
    inputs: &'a [Vec<u8>],
    cycles: Vec<Option<u64>>,
    derived: Vec<DerivedRun>,
    rate: u128,
}

// The places of the inputs that count.
fn places_of(alloc: Global, flags: &[bool]) -> Result<Vec<usize>, NoMemory> {
    let mut places = Vec::new(alloc);
    for (k, flag) in flags.iter().enumerate() {
        if *flag {
            places.push(k)?;
        }
    }
    Ok(places)
}

// The runs on inputs that are derived from those of a fit that count; none where the files are refused.
fn derived_of<P: Progress>(
    alloc: Global,
    goal: &FitGoal<'_>,
    image: &[u8],
    loops: &[u8],
    fit: &Fit,
    progress: &mut P,
) -> Result<Vec<DerivedRun>, NoMemory> {
    let places = places_of(alloc, &fit.flags)?;
    let program = ProgramInputs {
        image,
        machine: goal.machine,
        loops,
        inputs: goal.inputs,
        places: &places,
    };
    match derived_runs(alloc, &program, progress) {
        Ok(runs) => Ok(runs),
        Err(Stop::Refused(_)) => Ok(Vec::new(alloc)),
        Err(Stop::Memory) => Err(NoMemory),
    }
}

impl<'a> HeldRuns<'a> {
    /// Those of a program with a loop file, of which this is a fit. How far they are is told.
    pub fn new<P: Progress>(
        alloc: Global,
        goal: &FitGoal<'a>,
        image: &[u8],
        loops: &[u8],
        fit: &Fit,
        progress: &mut P,
    ) -> Result<HeldRuns<'a>, NoMemory> {
        let derived = derived_of(alloc, goal, image, loops, fit, progress)?;
        Ok(HeldRuns {
            machine: goal.machine,
            inputs: goal.inputs,
            cycles: Vec::from_slice(alloc, &fit.cycles)?,
            derived,
            rate: fit.rate,
        })
    }

    // Whether an image takes over 2 percent more on one of the inputs that count.
    fn loses_given<P: Progress>(
        &self,
        alloc: Global,
        compared: &mut ComparedImage<'_>,
        progress: &mut P,
    ) -> Result<bool, Stop> {
        progress.begin(Part::Input, self.inputs.len());
        for (k, input) in self.inputs.iter().enumerate() {
            let cycles = if k < self.cycles.len() {
                self.cycles[k]
            } else {
                None
            };
            if compared.loses(alloc, input, cycles.unwrap_or(0), progress)? {
                return Ok(true);
            }
        }
        Ok(false)
    }

    // The same for the inputs that count and the derived ones.
    fn loses_on_some<P: Progress>(
        &self,
        alloc: Global,
        image: &[u8],
        progress: &mut P,
    ) -> Result<bool, Stop> {
        let mut compared = ComparedImage::read(alloc, image, self.machine, self.rate)?;
        Ok(
            compared.loses_derived(alloc, &self.derived, progress)?
                || self.loses_given(alloc, &mut compared, progress)?,
        )
    }

    /// Whether a stored image takes over 2 percent more than these runs on some input, as long as its own runs take few steps in all. How far they are is told.
    pub fn loses<P: Progress>(
        &self,
        alloc: Global,
        image: &[u8],
        progress: &mut P,
    ) -> Result<bool, NoMemory> {
        match self.loses_on_some(alloc, image, progress) {
            Ok(loses) => Ok(loses),
            Err(Stop::Refused(_)) => Ok(false),
            Err(Stop::Memory) => Err(NoMemory),
        }
    }
}
