//! Proposals that count the loops that are noted so.

ghost use Rattle.std.specs.Prelude.{◌≤◌, length, IfOk};

use crate::building::{Files, are_dear, scaling_of};
use paced_images::{KeptMarks, Proposal, SwitchSite, useful_marks};
use scale_base::{NoMemory, Stop};
use std::alloc::Global;

/// How often switches are taken out that can lower nothing: with others out, more may be able to.
const ROUNDS: usize = 3;

/// Some switches, with the loops counted that are noted so.
fn counted_with(alloc: Global, sites: Vec<SwitchSite>) -> Proposal
    requires { length sites.items ≤ 8 }
{
    Proposal {
        sites,
        tallied: Vec::new(alloc),
        share: 4,
        counted: true,
    }
}

/// The first eight of some switches at most.
fn few(mut sites: Vec<SwitchSite>) -> Vec<SwitchSite>
    ensures { length result.items ≤ 8 }
{
    sites.truncate(8);
    sites
}

/// The marks of a proposal that can lower a level; none where it is refused.
fn useful(
    alloc: Global,
    files: &Files<'_>,
    proposal: &Proposal,
) -> Result<Option<KeptMarks>, NoMemory> {
    let marks = proposal.marks();
    match useful_marks(alloc, files.image, files.machine, files.loops, &marks) {
        Ok(kept) => Ok(Some(kept)),
        Err(Stop::Refused(_)) => Ok(None),
        Err(Stop::Memory) => Err(NoMemory),
    }
}

/// The proposal without the switches that can lower nothing; none where there are such again and again, or it is refused.
fn thinned(
    alloc: Global,
    files: &Files<'_>,
    proposal: Proposal,
) -> Result<Option<Proposal>, NoMemory> {
    let mut thinned = proposal;
    for _ in 0..ROUNDS {
        let Some(kept) = useful(alloc, files, &thinned)? else {
            return Ok(None);
        };
        if kept.sites.len() == thinned.sites.len() {
            return Ok(Some(thinned));
        }
        thinned = counted_with(alloc, few(kept.sites));
    }
    Ok(None)
}

/// Whether a proposal counts some loop, and its stubs add few cycles to so many worst ones.
fn is_worth_it(
    alloc: Global,
    files: &Files<'_>,
    worst: u64,
    proposal: &Proposal,
) -> Result<bool, NoMemory> {
    match scaling_of(alloc, files, proposal)? {
        Some(scaling) => {
            let summary = &scaling.summary;
            Ok(summary.exit_edges > 0 && !are_dear(summary.stub_cycles, worst))
        }
        None => Ok(false),
    }
}

/// A proposal with some switches that counts the loops that are noted so, if it may be worth it.
fn counting(
    alloc: Global,
    files: &Files<'_>,
    worst: u64,
    sites: Vec<SwitchSite>,
) -> Result<Option<Proposal>, NoMemory> {
    let proposal = counted_with(alloc, few(sites));
    if let Some(thinned) = thinned(alloc, files, proposal)? {
        if is_worth_it(alloc, files, worst, &thinned)? {
            return Ok(Some(thinned));
        }
    }
    Ok(None)
}

/// Appends a proposal, if there is one, to some that are fewer than so many.
fn offer(
    proposals: &mut Vec<Proposal>,
    most: usize,
    proposal: Option<Proposal>,
) -> Result<(), NoMemory> {
    if let Some(proposal) = proposal {
        if proposals.len() < most {
            proposals.push(proposal)?;
        }
    }
    Ok(())
}

/// The switches of the first of some proposals.
fn first_sites(alloc: Global, proposals: &[Proposal]) -> Result<Vec<SwitchSite>, NoMemory> {
    match proposals.first() {
        Some(proposal) => Ok(Vec::from_slice(alloc, &proposal.sites)?),
        None => Ok(Vec::new(alloc)),
    }
}

/// Appends to some proposals two that count the loops that are noted so, where there are at most so many then and they may be worth it: the loops
/// alone, and with them the switches of the first proposal.
pub fn add_counted(
    alloc: Global,
    files: &Files<'_>,
    worst: u64,
    most: usize,
    proposals: &mut Vec<Proposal>,
) -> Result<(), NoMemory> {
    let first = first_sites(alloc, proposals)?;
    let alone = counting(alloc, files, worst, Vec::new(alloc))?;
    offer(proposals, most, alone)?;
    if first.is_empty() {
        return Ok(());
    }
    let with_switches = counting(alloc, files, worst, first)?;
    offer(proposals, most, with_switches)
}
