//! What `explain` gives for its files.

ghost use Rattle.std.specs.Prelude.{string_bytes, IfOk};
ghost use Rattle.scale_base.specs.Answer.{AnswersBy};
ghost use Rattle.host_runs.specs.Answer.{Tells, text_answer};
ghost use Rattle.host_runs.specs.Views.{reply_view};
ghost use Rattle.worst_reports.specs.Explained.{AreExplained};
ghost use Rattle.worst_reports.specs.ExplainedTexts as texts;
ghost use Rattle.pace_tool.specs.Told.{TextOf};

use crate::replies::text_reply;
use host_runs::{ProgramFiles, Reply};
use scale_base::{NoMemory, Stop};
use std::alloc::Global;
use worst_reports::{explain, explained_text};

// Where the worst cycles go, as a text.
fn explained(alloc: Global, files: &ProgramFiles<'_>) -> Result<String, Stop>
    ensures { AnswersBy string_bytes result (TextOf (AreExplained files.now.image.now files.now.machine.now files.now.loops.now)
        texts.explained_text) }
{
    let explained = explain(alloc, files.image, files.machine, files.loops)?;
    Ok(explained_text(alloc, &explained)?)
}

/// What `explain` gives for its three files.
pub fn explain_reply(alloc: Global, files: &ProgramFiles<'_>) -> Result<Reply, NoMemory>
    ensures { IfOk result (λ reply. Tells (AreExplained files.now.image.now files.now.machine.now files.now.loops.now)
        (text_answer texts.explained_text) (reply_view reply)) }
{
    text_reply(alloc, explained(alloc, files))
}
