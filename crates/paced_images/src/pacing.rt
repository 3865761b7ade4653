//! A program that lowers its speed where it is told to, as far as its worst case allows.

ghost use Rattle.std.specs.Prelude.{◌≤◌, length, IfOk};
ghost use Rattle.scale_base.specs.Answer.{AnswersBy};
ghost use Rattle.marked_images.specs.Promise.{IsStoredSafely};
ghost use Rattle.paced_images.specs.Paced.{IsPaced};

use crate::programs::program_of;
use crate::wanted::ChosenMarks;
use marked_images::stored_file;
use scale_base::{FILE_LIMIT, IMAGE_LIMIT, Stop, Summary};
use std::alloc::Global;

/// The image with its stubs, or the first refusal.
fn pace_files(
    alloc: Global,
    image: &[u8],
    machine: &[u8],
    loops: &[u8],
    marks: &ChosenMarks<'_>,
) -> Result<(Vec<u8>, Summary), Stop>
    requires image { length image.now ≤ IMAGE_LIMIT }
    ensures { AnswersBy (λ given. (given.0.items, given.1)) result (IsPaced image.now machine.now loops.now marks.now.sites.now
        marks.now.counted marks.now.tallied.now marks.now.share) }
{
    let program = program_of(alloc, image, machine, loops, marks)?;
    let bytes = stored_file(alloc, &program.view, &program.scaling)?;
    Ok((bytes, program.scaling.summary))
}

/// The image with switches of level on the edges that the sites name, and with those of its counted loops, as `rewrite` makes it in all else.
/// Without `counted` no loop is counted, whatever the loop file notes, but for those that are tallied.
/// The tables keep budgets: the starting level has the time of the worst cycles there, the lowest one the deadline, and each level between
/// them the time of the starting one and `share` quarters of what that leaves before the deadline. So a switch lowers the level also where
/// its own edge has no slack. Or the first refusal, in the order of `rewrite`.
///
/// A site with `lowest` stores level 0 by one instruction, where its edge may go there from every level; elsewhere that instruction stores
/// nothing at the port.
///
/// `tallied` has the addresses of the headers of loops that are tallied: each is counted, whatever the loop file notes, and each of its back
/// edges stores level 0 from the least count of turns on from which it may go there from every level. Its ways out reset its counter, and
/// have no table. An address at which no loop has its header changes nothing.
///
/// A site that names no edge of a branch or of a jump of the reached code changes nothing, and nor does one whose edge leaves a counted loop,
/// which has an exit there, or is a back edge of a tallied one. The summary counts the edges that may store a level, and those that count.
///
/// The files have at most the bytes that the program loads: 4,194,304 of an image, 1,048,576 of each other file. Times are in
/// the machine file's time units.
pub fn pace(
    alloc: Global,
    image: &[u8],
    machine: &[u8],
    loops: &[u8],
    marks: &ChosenMarks<'_>,
) -> Result<(Vec<u8>, Summary), Stop>
    requires image { length image.now ≤ IMAGE_LIMIT }
    requires machine { length machine.now ≤ FILE_LIMIT }
    requires loops { length loops.now ≤ FILE_LIMIT }
    ensures given { AnswersBy (λ given. (given.0.items, given.1)) result (IsPaced image.now machine.now loops.now marks.now.sites.now
        marks.now.counted marks.now.tallied.now marks.now.share) }

    // On each input on which the original run exits and is kept, by the files' own notes, the stored run keeps the promise.
    ensures safe { IfOk result (λ given. IsStoredSafely image.now machine.now loops.now given.0.items given.1) }
{
    pace_files(alloc, image, machine, loops, marks)
}
