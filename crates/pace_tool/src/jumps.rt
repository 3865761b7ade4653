//! What `jumps` gives for its file.

ghost use Rattle.std.specs.Prelude.{IfOk};
ghost use Rattle.scale_base.specs.Answer.{AnswersBy};
ghost use Rattle.host_runs.specs.Answer.{Tells, stored_answer};
ghost use Rattle.host_runs.specs.Views.{reply_view};
ghost use Rattle.jump_drafts.specs.Texts as texts;
ghost use Rattle.pace_tool.specs.Answer.{DraftsJumps};
ghost use Rattle.pace_tool.specs.Told.{FileOf, written_view};

use crate::replies::stored_reply;
use host_runs::Reply;
use jump_drafts::{draft_jumps, jumps_text};
use scale_base::{NoMemory, Stop};
use std::alloc::Global;

// The drafted file, and what is told of it.
fn drafted(alloc: Global, image: &[u8]) -> Result<(Vec<u8>, String), Stop>
    ensures { AnswersBy written_view result (FileOf (DraftsJumps image.now) texts.jumps_text) }
{
    let draft = draft_jumps(alloc, image)?;
    let text = jumps_text(alloc, &draft)?;
    Ok((draft.file.into_bytes(), text))
}

/// What `jumps` gives for its image.
pub fn jumps_reply(alloc: Global, out: &str, image: &[u8]) -> Result<Reply, NoMemory>
    ensures { IfOk result (λ reply. Tells (DraftsJumps image.now) (stored_answer texts.jumps_text out.now) (reply_view reply)) }
{
    stored_reply(alloc, out, drafted(alloc, image))
}
