//! What `draw plan` gives for its files.

ghost use Rattle.std.specs.Prelude.{IfOk};
ghost use Rattle.scale_base.specs.Answer.{AnswersBy};
ghost use Rattle.host_runs.specs.Answer.{Tells, stored_answer};
ghost use Rattle.host_runs.specs.Views.{reply_view};
ghost use Rattle.plan_texts.specs.Counts as texts;
ghost use Rattle.pace_tool.specs.Drawn.{DrawsPlan};
ghost use Rattle.pace_tool.specs.Told.{FileOf, written_view};

use crate::replies::stored_reply;
use host_runs::{ProgramFiles, Reply};
use plan_graphs::draw_plan;
use plan_texts::{plan_dot, plan_text};
use scale_base::{NoMemory, Stop};
use std::alloc::Global;

// The graph as Graphviz takes it, and what is told of it.
fn drawn(alloc: Global, files: &ProgramFiles<'_>) -> Result<(Vec<u8>, String), Stop>
    ensures { AnswersBy written_view result (FileOf (DrawsPlan files.now.image.now files.now.machine.now files.now.loops.now)
        texts.plan_text) }
{
    let plan = draw_plan(alloc, files.image, files.machine, files.loops)?;
    let file = plan_dot(alloc, &plan)?;
    let text = plan_text(alloc, &plan)?;
    Ok((file.into_bytes(), text))
}

/// What `draw plan` gives for its three files.
pub fn draw_plan_reply(
    alloc: Global,
    out: &str,
    files: &ProgramFiles<'_>,
) -> Result<Reply, NoMemory>
    ensures { IfOk result (λ reply. Tells (DrawsPlan files.now.image.now files.now.machine.now files.now.loops.now)
        (stored_answer texts.plan_text out.now) (reply_view reply)) }
{
    stored_reply(alloc, out, drawn(alloc, files))
}
