//! The image that `all` goes on with: its jumps are lowered, where there is something to do.

ghost use Rattle.std.specs.Prelude.{◌≡◌, ◌++◌, ◌≤◌, false, length, string_bytes, true, OnOk};
ghost use Rattle.std.specs.List.{list_any};
ghost use Rattle.scale_base.specs.Answer.{AnswersBy};
ghost use Rattle.scale_report.specs.Texts.{lowered_text};
ghost use Rattle.pace_tool.specs.InOne.{IsPlainFor, MakesPlain, has_jumps, is_far};
ghost use Rattle.pace_tool.specs.Told.{written_view};

use image_lower::lower;
use jump_drafts::{JumpDraft, OpenJump, Reason, draft_jumps, jumps_text};
use scale_base::{IMAGE_LIMIT, Lowered, NoMemory, Stop};
use scale_report::lowered_text;
use std::alloc::Global;

fn is_far(jump: &OpenJump) -> bool
    ensures { result ≡ is_far jump.now.reason }
{
    matches!(jump.reason, Reason::FarJump)
}

fn any_far(jumps: &[OpenJump]) -> bool
    ensures { result ≡ list_any (λ jump. is_far jump.reason) jumps.now }
{
    jumps.iter().any(|jump| is_far(jump))
}

// Whether `lower` has something to do.
fn has_jumps(draft: &JumpDraft) -> bool
    ensures { result ≡ has_jumps draft.now }
{
    !draft.notes.as_slice().is_empty() || any_far(&draft.others)
}

// The image as it is.
fn unchanged(alloc: Global, image: &[u8], draft: &JumpDraft) -> Result<(Vec<u8>, String), Stop>
    ensures { AnswersBy written_view result (IsPlainFor false image.now draft.now) }
{
    let text = jumps_text(alloc, draft)?;
    Ok((image.to_vec(alloc)?, text))
}

// Adds what is told of an image that was lowered.
fn push_lowered(alloc: Global, text: &mut String, counts: &Lowered) -> Result<(), NoMemory>
    ensures { OnOk result (string_bytes text.new ≡ string_bytes text.old ++ lowered_text counts.now) }
{
    text.push_str(lowered_text(alloc, counts)?.as_str())?;
    Ok(())
}

// The image lowered by the draft.
fn lowered(alloc: Global, image: &[u8], draft: &JumpDraft) -> Result<(Vec<u8>, String), Stop>
    requires { length image.now ≤ IMAGE_LIMIT }
    ensures { AnswersBy written_view result (IsPlainFor true image.now draft.now) }
{
    let mut text = jumps_text(alloc, draft)?;
    let (bytes, counts) = lower(alloc, image, draft.file.as_bytes())?;
    push_lowered(alloc, &mut text, &counts)?;
    Ok((bytes, text))
}

// The image by the draft of its jumps.
fn plain_by(alloc: Global, image: &[u8], draft: &JumpDraft) -> Result<(Vec<u8>, String), Stop>
    requires { length image.now ≤ IMAGE_LIMIT }
    ensures { AnswersBy written_view result (IsPlainFor (has_jumps draft.now) image.now draft.now) }
{
    if has_jumps(draft) {
        lowered(alloc, image, draft)
    } else {
        unchanged(alloc, image, draft)
    }
}

/// The image that goes on, with what is told of it, or the refusal of the draft of its jumps or of `lower`.
pub fn plain_image(alloc: Global, image: &[u8]) -> Result<(Vec<u8>, String), Stop>
    requires { length image.now ≤ IMAGE_LIMIT }
    ensures { AnswersBy written_view result (MakesPlain image.now) }
{
    let draft = draft_jumps(alloc, image)?;
    plain_by(alloc, image, &draft)
}
