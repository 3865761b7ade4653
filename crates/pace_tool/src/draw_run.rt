//! What `draw run` gives for its files.

ghost use Rattle.std.specs.Prelude.{◌≡◌, ◌++◌, [], ◌∷◌, map, IfOk, OnOk};
ghost use Rattle.scale_base.specs.Answer.{AnswersBy};
ghost use Rattle.host_runs.specs.Answer.{Tells, stored_answer};
ghost use Rattle.host_runs.specs.Views.{files_view, reply_view};
ghost use Rattle.run_pictures.specs.PictureTexts as texts;
ghost use Rattle.pace_tool.specs.Drawn.{AreDrawn, DrawsRuns, file_texts, run_texts};
ghost use Rattle.pace_tool.specs.Told.{FileOf, written_view};
ghost use Rattle.pace_tool.specs.Views as views;

use crate::command::DrawRun;
use crate::replies::stored_reply;
use host_runs::Reply;
use run_pictures::{DrawnFiles, draw_runs, picture_svg, picture_text};
use run_progress::Progress;
use scale_base::{NoMemory, Stop};
use std::alloc::{AllocError, Global};

// Adds the files of a run.
#[tactic(auto, using(crate::proofs::DrawnFiles::one_more_run))]
fn push_run<'a>(
    runs: &mut Vec<DrawnFiles<'a>>,
    image_name: &'a str,
    input_name: &'a str,
    image: &'a [u8],
    input: &'a [u8],
) -> Result<(), AllocError>
    ensures { OnOk result (map file_texts runs.new.items ≡ map file_texts runs.old.items ++
        (image_name.now, input_name.now, image.now, input.now) ∷ []) }
{
    runs.push(DrawnFiles {
        image_name,
        input_name,
        image,
        input,
    })?;
    Ok(())
}

// Adds the files of runs, of which each has two names and two files.
fn push_files<'a>(
    runs: &mut Vec<DrawnFiles<'a>>,
    names: &[&'a str],
    files: &'a [Vec<u8>],
) -> Result<(), AllocError>
    ensures { OnOk result (map file_texts runs.new.items ≡ map file_texts runs.old.items ++ run_texts (views.texts names.now)
        (files_view files.now)) }
{
    match names {
        [image_name, input_name, other_names @ ..] => match files {
            [image, input, other_files @ ..] => {
                push_run(runs, image_name, input_name, image, input)?;
                push_files(runs, other_names, other_files)
            }
            _ => Ok(()),
        },
        _ => Ok(()),
    }
}

// The picture of these runs, and what is told of them.
fn drawn<P: Progress>(
    alloc: Global,
    machine: &[u8],
    runs: &[DrawnFiles<'_>],
    progress: &mut P,
) -> Result<(Vec<u8>, String), Stop>
    ensures { AnswersBy written_view result (FileOf (AreDrawn machine.now runs.now) texts.picture_text) }
{
    let picture = draw_runs(alloc, machine, runs, progress)?;
    let file = picture_svg(alloc, &picture)?;
    let text = picture_text(alloc, &picture)?;
    Ok((file.into_bytes(), text))
}

/// What `draw run` gives for its machine file, and for the images and inputs whose names it has. How far it is is told.
pub fn draw_run_reply<P: Progress>(
    alloc: Global,
    draw: &DrawRun<'_>,
    machine: &[u8],
    files: &[Vec<u8>],
    progress: &mut P,
) -> Result<Reply, NoMemory>
    ensures { IfOk result (λ reply. Tells (DrawsRuns machine.now (views.texts draw.now.names.now) (files_view files.now))
        (stored_answer texts.picture_text draw.now.out.now) (reply_view reply)) }
{
    let mut runs = Vec::new(alloc);
    push_files(&mut runs, draw.names, files)?;
    stored_reply(alloc, draw.out, drawn(alloc, machine, &runs, progress))
}
