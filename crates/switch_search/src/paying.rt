//! What proposals save that count loops, and what they lose, by their runs: the search doesn't price them.

use crate::building::Files;
use crate::growing::WORTH_RISK;
use paced_images::{Proposal, pace_useful};
use run_progress::{Part, Progress};
use run_traces::{ComparedImage, Runs};
use scale_base::Stop;
use speed_sim::{RunFiles, simulate_with_progress};
use std::alloc::Global;

/// A program, the inputs on which it runs, by place the cycles of the original's runs, and the energy units of a cycle at the starting level.
#[derive(Clone, Copy)]
pub struct Tries<'a> {
    pub files: Files<'a>,
    pub runs: &'a Runs<'a>,
    pub cycles: &'a [Option<u64>],
    pub rate: u128,
}

/// The energy of an image on an input.
fn spent_on<'a, P: Progress>(
    alloc: Global,
    image: &'a [u8],
    machine: &'a [u8],
    input: &'a [u8],
    progress: &mut P,
) -> Result<u128, Stop> {
    let files = RunFiles {
        image,
        machine,
        input,
        loops: None,
    };
    let report = simulate_with_progress(alloc, &files, progress)?;
    Ok(report.meter.energy)
}

/// The energy of an image over the inputs. How far its runs are is told.
fn spent<P: Progress>(
    alloc: Global,
    tries: &Tries<'_>,
    image: &[u8],
    progress: &mut P,
) -> Result<u128, Stop> {
    let mut energy: u128 = 0;
    progress.begin(Part::Input, tries.runs.places.len());
    for k in tries.runs.places {
        progress.next(Part::Input);
        if *k < tries.runs.inputs.len() {
            let input = &tries.runs.inputs[*k];
            let more = spent_on(alloc, image, tries.files.machine, input, progress)?;
            energy = energy.saturating_add(more);
        }
    }
    Ok(energy)
}

/// The energy over the inputs at the starting level.
fn held(tries: &Tries<'_>) -> u128 {
    let mut energy: u128 = 0;
    for k in tries.runs.places {
        if *k < tries.cycles.len() {
            let cycles = u128::from(tries.cycles[*k].unwrap_or(0));
            energy = energy.saturating_add(cycles.saturating_mul(tries.rate));
        }
    }
    energy
}

/// Whether the runs with an image save enough on the inputs.
fn saves<P: Progress>(
    alloc: Global,
    tries: &Tries<'_>,
    image: &[u8],
    progress: &mut P,
) -> Result<bool, Stop> {
    let held = held(tries);
    let saved = held.saturating_sub(spent(alloc, tries, image, progress)?);
    Ok(saved.saturating_mul(1000) >= held.saturating_mul(WORTH_RISK))
}

/// Whether the run of an image on a derived input takes over 2 percent more than at the starting level.
fn loses<P: Progress>(
    alloc: Global,
    tries: &Tries<'_>,
    image: &[u8],
    progress: &mut P,
) -> Result<bool, Stop> {
    let mut compared = ComparedImage::read(alloc, image, tries.files.machine, tries.rate)?;
    compared.loses_derived(alloc, tries.runs.derived, progress)
}

/// Whether the runs with a proposal save enough on the inputs, and none on a derived input loses much.
fn pays<P: Progress>(
    alloc: Global,
    tries: &Tries<'_>,
    proposal: &Proposal,
    progress: &mut P,
) -> Result<bool, Stop> {
    let files = &tries.files;
    match pace_useful(alloc, files.image, files.machine, files.loops, proposal) {
        Ok(Some(made)) => Ok(
            saves(alloc, tries, &made.0, progress)? && !loses(alloc, tries, &made.0, progress)?,
        ),
        Ok(None) => Ok(false),
        Err(Stop::Refused(_)) => Ok(false),
        Err(Stop::Memory) => Err(Stop::Memory),
    }
}

/// Of some proposals those that count no loops as noted, and of the others those with which the runs save enough and none on a derived
/// input loses much.
pub fn paying<P: Progress>(
    alloc: Global,
    tries: &Tries<'_>,
    proposals: Vec<Proposal>,
    progress: &mut P,
) -> Result<Vec<Proposal>, Stop> {
    let mut kept = Vec::new(alloc);
    for proposal in proposals {
        if !proposal.counted || pays(alloc, tries, &proposal, progress)? {
            kept.push(proposal)?;
        }
    }
    Ok(kept)
}
