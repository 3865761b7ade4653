//! The images of proposals of which no mark is dead.

ghost use Rattle.std.specs.Prelude.{◌≡◌, ◌≤◌, ◌↔◌, true, length, option_map, IfOk, IfSome};
ghost use Rattle.scale_base.specs.Answer.{AnswersBy};
ghost use Rattle.marked_images.specs.Promise.{IsStoredSafely};
ghost use Rattle.paced_images.specs.Proposed.{IsProposalPaced};

use crate::programs::program_of;
use crate::proposal::Proposal;
use crate::useful::{KeptMarks, kept_marks};
use marked_images::stored_file;
use scale_base::{FILE_LIMIT, IMAGE_LIMIT, Stop, Summary};
use std::alloc::Global;

/// Whether as many marks are of use as a proposal has.
fn are_all(kept: &KeptMarks, proposal: &Proposal) -> bool
    ensures { (result ≡ true) ↔ ((length kept.now.sites.items ≡ length proposal.now.sites.items) ×
        (length kept.now.tallied.items ≡ length proposal.now.tallied.items)) }
{
    kept.sites.len() == proposal.sites.len() && kept.tallied.len() == proposal.tallied.len()
}

/// The image of a proposal, unless some mark of it is dead.
fn pace_all(
    alloc: Global,
    image: &[u8],
    machine: &[u8],
    loops: &[u8],
    proposal: &Proposal,
) -> Result<Option<(Vec<u8>, Summary)>, Stop>
    requires { length image.now ≤ IMAGE_LIMIT }
    ensures { AnswersBy (option_map (λ given. (given.0.items, given.1))) result
        (IsProposalPaced image.now machine.now loops.now proposal.now) }
{
    let marks = proposal.marks();
    let program = program_of(alloc, image, machine, loops, &marks)?;
    let kept = kept_marks(alloc, &program, marks.sites, marks.tallied)?;
    if !are_all(&kept, proposal) {
        return Ok(None);
    }
    let bytes = stored_file(alloc, &program.view, &program.scaling)?;
    Ok(Some((bytes, program.scaling.summary)))
}

/// The image that `pace` makes of a proposal, where each of its marks is of use there, as `useful_marks` says; none where some can lower
/// nothing. Or the refusal of `pace`.
///
/// The exits of loops that are counted since their notes say so are no marks of the proposal.
///
/// The files have at most the bytes that the program loads, as with `pace`.
pub fn pace_useful(
    alloc: Global,
    image: &[u8],
    machine: &[u8],
    loops: &[u8],
    proposal: &Proposal,
) -> Result<Option<(Vec<u8>, Summary)>, Stop>
    requires image { length image.now ≤ IMAGE_LIMIT }
    requires machine { length machine.now ≤ FILE_LIMIT }
    requires loops { length loops.now ≤ FILE_LIMIT }
    ensures given { AnswersBy (option_map (λ given. (given.0.items, given.1))) result
        (IsProposalPaced image.now machine.now loops.now proposal.now) }

    // On each input on which the original run exits and is kept, by the files' own notes, the stored run keeps the promise.
    ensures safe { IfOk result (λ made. IfSome made (λ given. IsStoredSafely image.now machine.now loops.now given.0.items given.1)) }
{
    pace_all(alloc, image, machine, loops, proposal)
}
