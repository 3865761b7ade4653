//! Images that are chosen of proposals. Rows of whole fittings are data, `fit.txt` of the second program's `cases`.

use crate::fixtures::*;
use gain_tuner::GivenFiles;
use pace_fit::{Fitted, choose, prepare};
use paced_images::{Proposal, SwitchSite};
use run_progress::Silent;
use scale_base::EdgeKind;
use std::alloc::Global;
use std::process::Abort;
use std::test::Fail;
use switch_search::propose;

/// The way over the divisions of `SKIP_FOURTEEN`.
const SKIPPED: SwitchSite = SwitchSite {
    at: 0x10000,
    kind: EdgeKind::Taken,
    lowest: false,
};

/// No edge of the program.
const NOWHERE: SwitchSite = SwitchSite {
    at: 0x20000,
    kind: EdgeKind::Taken,
    lowest: false,
};

/// A proposal of a site.
fn proposal_of(alloc: Global, site: SwitchSite) -> Result<Proposal, Fail> {
    let mut sites = Vec::new(alloc);
    sites.push(site)?;
    Ok(Proposal {
        sites,
        tallied: Vec::new(alloc),
        share: 4,
        counted: true,
    })
}

/// Proposals of a site each.
fn proposals_of(alloc: Global, sites: &[SwitchSite]) -> Result<Vec<Proposal>, Fail> {
    let mut proposals = Vec::new(alloc);
    for site in sites {
        proposals.push(proposal_of(alloc, *site)?)?;
    }
    Ok(proposals)
}

/// What is chosen of files that the program would load.
fn chosen(
    alloc: Global,
    files: &Files<'_>,
    inputs: &[Vec<u8>],
    proposals: &[Proposal],
) -> Result<Fitted, Fail> {
    let image = files.image.as_slice();
    let machine = files.machine.as_bytes();
    let loops = files.loops.as_bytes();
    if image.len() > 4_194_304 || machine.len() > 1_048_576 || loops.len() > 1_048_576 {
        return Err(Fail::from("files that are too long"));
    }
    if inputs.len() > 64 || !are_short(inputs) || proposals.len() > 64 {
        return Err(Fail::from("inputs or proposals"));
    }
    let given = GivenFiles {
        image,
        machine,
        loops,
        inputs,
    };
    match prepare(alloc, &given, &mut Silent) {
        Ok(prepared) => Ok(choose(alloc, &given, &prepared, proposals, &mut Silent)?.1),
        Err(_) => Err(Fail::from("files that are refused")),
    }
}

/// Of `SKIP_FOURTEEN`, with proposals of a site each.
fn fitted_of(
    alloc: Global,
    files: &Files<'_>,
    inputs: &[Vec<u8>],
    sites: &[SwitchSite],
) -> Result<Fitted, Fail> {
    let proposals = proposals_of(alloc, sites)?;
    chosen(alloc, files, inputs, &proposals)
}

fn fitted(alloc: Global, sizes: &[usize], sites: &[SwitchSite]) -> Result<Fitted, Fail> {
    let files = files_of(alloc, &SKIPPING)?;
    let inputs = inputs_of(alloc, sizes)?;
    fitted_of(alloc, &files, &inputs, sites)
}

/// The inputs, the sites of the proposals, the candidate that is chosen, and the energies: its own, that of the image at one level, that of
/// the rewritten one, and the least of the 108 cycles of a run, which are all in time at the slowest level.
static CHOICES: [(&[usize], &[SwitchSite], u32, [u128; 4]); 7] = [
    (&[0], &[], 0, [324, 324, 174, 108]),
    (&[0], &[SKIPPED], 1, [174, 324, 174, 108]),
    (&[0], &[NOWHERE], 0, [324, 324, 174, 108]),
    (
        &[0, 0],
        &[NOWHERE, SKIPPED, SKIPPED],
        2,
        [348, 648, 348, 216],
    ),
    (&[], &[], 0, [0, 0, 0, 0]),
    (&[], &[SKIPPED], 1, [0, 0, 0, 0]),
    (&[], &[NOWHERE, SKIPPED], 2, [0, 0, 0, 0]),
];

fn check_choice(
    rt: &impl Abort,
    choice: &Fitted,
    candidate: u32,
    inputs: usize,
    energies: &[u128; 4],
) {
    let found = [
        choice.energy,
        choice.hold_energy,
        choice.rewrite_energy.unwrap_or(u128::MAX),
        choice.least_energy,
    ];
    assert_eq!(rt; choice.candidate, candidate);
    assert_eq!(rt;
        found,
        *energies,
        "candidate {candidate} of {inputs} inputs"
    );
    assert_eq!(rt; (choice.inputs as usize, choice.left_out), (inputs, 0));
}

#[test]
fn the_first_of_the_cheapest_and_without_inputs_the_first_that_is_built(
    rt: HostRuntime,
) -> Result<(), Fail> {
    for (sizes, sites, candidate, energies) in &CHOICES {
        let choice = fitted(rt.alloc(), sizes, sites)?;
        check_choice(&rt, &choice, *candidate, sizes.len(), energies);
    }
    Ok(())
}

/// What is proposed for one input, on which the original takes 100 cycles.
fn proposed(alloc: Global, files: &Files<'_>, inputs: &[Vec<u8>]) -> Result<Vec<Proposal>, Fail> {
    let image = files.image.as_slice();
    let machine = files.machine.as_bytes();
    let loops = files.loops.as_bytes();
    if image.len() > 4_194_304 || machine.len() > 1_048_576 || loops.len() > 1_048_576 {
        return Err(Fail::from("files that are too long"));
    }
    if inputs.len() != 1 {
        return Err(Fail::from("inputs"));
    }
    let files = switch_search::Files {
        image,
        machine,
        loops,
    };
    Ok(propose(alloc, &files, inputs, &[Some(100)], &mut Silent)?)
}

/// The first site of the first proposal, and how many sites and tallied loops this has.
fn first_of(proposals: &[Proposal]) -> Option<(u32, EdgeKind, bool, usize, usize)> {
    let first = proposals.first()?;
    let site = first.sites.first()?;
    Some((
        site.at,
        site.kind,
        site.lowest,
        first.sites.len(),
        first.tallied.len(),
    ))
}

/// Of the files of `SKIP_FOURTEEN`.
fn first_proposed(
    alloc: Global,
    files: &Files<'_>,
) -> Result<Option<(u32, EdgeKind, bool, usize, usize)>, Fail> {
    let inputs = inputs_of(alloc, &[0])?;
    let proposals = proposed(alloc, files, &inputs)?;
    Ok(first_of(&proposals))
}

/// A run that passes over the divisions can do the rest at the lowest level.
#[test]
fn a_switch_is_proposed_on_the_way_over_the_divisions(rt: HostRuntime) -> Result<(), Fail> {
    let files = files_of(rt.alloc(), &SKIPPING)?;
    let found = first_proposed(rt.alloc(), &files)?;
    assert_eq!(rt; found, Some((0x10000, EdgeKind::Taken, true, 1, 0)));
    Ok(())
}
