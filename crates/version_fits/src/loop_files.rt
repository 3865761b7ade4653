//! Loop files of programs and of their versions.

ghost use Rattle.std.specs.Prelude.{◌≤◌, length, string_bytes, IfOk, IfSome};
ghost use Rattle.scale_base.specs.declared.limits.TheConstants.{FILE_LIMIT};
ghost use Rattle.versioned_images.specs.Versions.{IsVersionOf};
ghost use Rattle.version_fits.specs.Chosen.{IsDraftedFile};
ghost use Rattle.version_fits.specs.Goals.{IsLoopFileOf};

use crate::goal::FitGoal;
use loop_drafts::{DraftInputs, draft_loops, printed_text};
use run_progress::Progress;
use scale_base::{FILE_LIMIT, NoMemory, Stop};
use std::alloc::Global;
use version_loops::{VersionedProgram, version_file};
use versioned_images::Version;

/// A draft of an image's loop file, where it is taken and no loop is open.
pub fn drafted_file<P: Progress>(
    alloc: Global,
    goal: &FitGoal<'_>,
    image: &[u8],
    progress: &mut P,
) -> Result<Option<String>, NoMemory>
    ensures drafted { IfOk result (λ file. IfSome file (λ file. IsDraftedFile image.now goal.now.most (string_bytes file))) }
    ensures short { IfOk result (λ file. IfSome file (λ file. length (string_bytes file) ≤ FILE_LIMIT)) }
{
    let inputs = DraftInputs {
        items: goal.inputs,
        most: goal.most,
        trusts: false,
    };
    match draft_loops(alloc, image, &inputs, progress) {
        Ok(draft) => {
            if draft.unbounded > 0 {
                return Ok(None);
            }
            Ok(Some(printed_text(alloc, &draft.pieces)?))
        }
        Err(Stop::Refused(_)) => Ok(None),
        Err(Stop::Memory) => Err(NoMemory),
    }
}

/// The loop file of a version of a program, if it has one: made by the one that is given, or else a draft, where it is taken and no loop is open.
pub fn file_of_version<P: Progress>(
    alloc: Global,
    goal: &FitGoal<'_>,
    plain: &[u8],
    version: &Version,
    progress: &mut P,
) -> Result<Option<String>, NoMemory>
    requires { IsVersionOf plain.now version.now }
    ensures file { IfOk result (λ file. IfSome file (λ file. IsLoopFileOf goal.now plain.now version.now (string_bytes file))) }
    ensures short { IfOk result (λ file. IfSome file (λ file. length (string_bytes file) ≤ FILE_LIMIT)) }
{
    match goal.given {
        Some(loops) => {
            let program = VersionedProgram {
                image: plain,
                loops,
            };
            version_file(alloc, &program, version, progress)
        }
        None => drafted_file(alloc, goal, &version.file, progress),
    }
}
