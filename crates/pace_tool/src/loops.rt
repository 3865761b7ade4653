//! What `loops` gives for its file.

ghost use Rattle.std.specs.Prelude.{IfOk};
ghost use Rattle.scale_base.specs.Answer.{AnswersBy};
ghost use Rattle.loop_drafts.specs.Kept.{AreBytes};
ghost use Rattle.host_runs.specs.Answer.{Tells, stored_answer};
ghost use Rattle.host_runs.specs.Views.{reply_view};
ghost use Rattle.pace_tool.specs.Drafts.{Drafts};
ghost use Rattle.pace_tool.specs.Texts as texts;
ghost use Rattle.pace_tool.specs.Told.{FileOf, written_view};

use crate::replies::stored_reply;
use crate::texts::drafted_text;
use host_runs::Reply;
use loop_drafts::{DraftInputs, draft_loops, printed_text};
use run_progress::Progress;
use scale_base::{NoMemory, Stop};
use std::alloc::Global;

// A draft: the file as it is printed, and what is told of it.
fn drafted<P: Progress>(
    alloc: Global,
    image: &[u8],
    inputs: &DraftInputs<'_>,
    progress: &mut P,
) -> Result<(Vec<u8>, String), Stop>
    ensures { AnswersBy written_view result (FileOf (Drafts image.now inputs.now.most inputs.now.trusts) texts.drafted_text) }
{
    let draft = draft_loops(alloc, image, inputs, progress)?;
    let file = printed_text(alloc, &draft.pieces)?;
    let text = drafted_text(alloc, &draft)?;
    Ok((file.into_bytes(), text))
}

/// What `loops` gives for its image: of the inputs only comments tell; with a limit of these, bounds are for inputs within it. How far it is is told.
pub fn loops_reply<P: Progress>(
    alloc: Global,
    out: &str,
    image: &[u8],
    inputs: &DraftInputs<'_>,
    progress: &mut P,
) -> Result<Reply, NoMemory>
    ensures bytes { AreBytes image.now }
    ensures told { IfOk result (λ reply. Tells (Drafts image.now inputs.now.most inputs.now.trusts) (stored_answer texts.drafted_text out.now)
        (reply_view reply)) }
{
    stored_reply(alloc, out, drafted(alloc, image, inputs, progress))
}
