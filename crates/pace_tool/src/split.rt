//! What `split` gives for its file.

ghost use Rattle.std.specs.Prelude.{IfOk};
ghost use Rattle.scale_base.specs.Answer.{AnswersBy};
ghost use Rattle.host_runs.specs.Answer.{Tells, stored_answer};
ghost use Rattle.host_runs.specs.Views.{reply_view};
ghost use Rattle.pace_tool.specs.Answer.{SplitsImage};
ghost use Rattle.pace_tool.specs.Texts as texts;
ghost use Rattle.pace_tool.specs.Told.{FileOf, written_view};

use crate::replies::stored_reply;
use crate::texts::split_text;
use host_runs::Reply;
use scale_base::{NoMemory, Stop};
use split_images::split_image;
use std::alloc::Global;

// The file that is made, and what is told of it.
fn written(alloc: Global, image: &[u8]) -> Result<(Vec<u8>, String), Stop>
    ensures { AnswersBy written_view result (FileOf (SplitsImage image.now) texts.split_text) }
{
    let split = split_image(alloc, image)?;
    let text = split_text(alloc, &split)?;
    Ok((split.file, text))
}

/// What `split` gives for its image.
pub fn split_reply(alloc: Global, out: &str, image: &[u8]) -> Result<Reply, NoMemory>
    ensures { IfOk result (λ reply. Tells (SplitsImage image.now) (stored_answer texts.split_text out.now) (reply_view reply)) }
{
    stored_reply(alloc, out, written(alloc, image))
}
