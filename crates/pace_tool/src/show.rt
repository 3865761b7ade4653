//! What `show` gives for its files.

ghost use Rattle.std.specs.Prelude.{string_bytes, IfOk};
ghost use Rattle.scale_base.specs.Answer.{AnswersBy};
ghost use Rattle.host_runs.specs.Answer.{Tells, text_answer};
ghost use Rattle.host_runs.specs.Views.{reply_view};
ghost use Rattle.level_reasons.specs.Program.{AreReasons};
ghost use Rattle.level_reasons.specs.ReasonTexts as texts;
ghost use Rattle.pace_tool.specs.Told.{TextOf};

use crate::replies::text_reply;
use host_runs::{ProgramFiles, Reply};
use level_reasons::{reasons, reasons_text};
use scale_base::{NoMemory, Stop};
use std::alloc::Global;

// The reasons as a text.
fn shown(alloc: Global, files: &ProgramFiles<'_>) -> Result<String, Stop>
    ensures { AnswersBy string_bytes result (TextOf (AreReasons files.now.image.now files.now.machine.now files.now.loops.now)
        texts.reasons_text) }
{
    let shown = reasons(alloc, files.image, files.machine, files.loops)?;
    Ok(reasons_text(alloc, &shown)?)
}

/// What `show` gives for its three files.
pub fn show_reply(alloc: Global, files: &ProgramFiles<'_>) -> Result<Reply, NoMemory>
    ensures { IfOk result (λ reply. Tells (AreReasons files.now.image.now files.now.machine.now files.now.loops.now)
        (text_answer texts.reasons_text) (reply_view reply)) }
{
    text_reply(alloc, shown(alloc, files))
}
