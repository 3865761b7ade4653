//! A program that is made of a number, rewritten, and run.

ghost use Rattle.std.specs.Prelude.{◌≡◌, ◌≤◌, ◌++◌, length, option_map, string_bytes, IfOk};
ghost use Rattle.power_model.specs.Report.{report_view};
ghost use Rattle.scale_base.specs.Answer.{Answers, AnswersBy};
ghost use Rattle.speed_sim.specs.Simulated.{simulated};
ghost use Rattle.scale_report.specs.Texts.{run_text, summary_text};
ghost use Rattle.host_runs.specs.Views.{file_view, reply_view, store_view, store_views};
ghost use Rattle.scale_tool.specs.Answer.{made_stores, runs_answer, scaled_answer};
ghost use Rattle.scale_tool.specs.Views.{made_view};
ghost use Rattle.scale_tool.specs.Scaled.{IsMadeReply, told_answer};

use crate::reply::status_of;
use host_runs::{Reply, Store};
use image_maker::Made;
use power_model::RunReport;
use run_progress::Progress;
use scale_base::{FILE_LIMIT, IMAGE_LIMIT, NoMemory, Stop, Summary};
use scale_report::{run_text, summary_text};
use scaler::rewrite;
use speed_sim::{RunFiles, simulate_with_progress};
use std::alloc::{AllocError, Global};

fn store_of(alloc: Global, prefix: &str, ending: &str, bytes: Vec<u8>) -> Result<Store, AllocError>
    ensures { IfOk result (λ store. store_view store ≡ (prefix.now ++ ending.now, bytes.items)) }
{
    let name = format!(in alloc; "{prefix}{ending}")?;
    Ok(Store { name, bytes })
}

fn stores_of(
    alloc: Global,
    prefix: &str,
    made: Made,
    scaled: Vec<u8>,
) -> Result<Vec<Store>, AllocError>
    ensures { IfOk result (λ stores. store_views stores.items ≡ made_stores prefix.now (made_view made) scaled.items) }
{
    Ok(vec![in alloc;
        store_of(alloc, prefix, ".elf", made.image)?,
        store_of(alloc, prefix, ".machine", made.machine)?,
        store_of(alloc, prefix, ".loops", made.loops)?,
        store_of(alloc, prefix, ".input", made.input)?,
        store_of(alloc, prefix, ".scaled", scaled)?,
    ]?)
}

// How a made image runs, and how the scaled one.
#[derive(Drop)]
struct MadeRuns {
    original: RunReport,
    scaled: RunReport,
}

// The summary, and the reports of both runs.
fn text_of(alloc: Global, summary: &Summary, runs: &MadeRuns) -> Result<String, NoMemory>
    ensures { IfOk result (λ text. string_bytes text ≡ summary_text summary.now ++ run_text (report_view runs.now.original) ++ run_text
        (report_view runs.now.scaled)) }
{
    let mut text = summary_text(alloc, summary)?;
    text.push_str(run_text(alloc, &runs.original)?.as_str())?;
    text.push_str(run_text(alloc, &runs.scaled)?.as_str())?;
    Ok(text)
}

// All files, and the text of the three.
fn reply_of(
    alloc: Global,
    prefix: &str,
    made: Made,
    scaled: (Vec<u8>, Summary),
    runs: &MadeRuns,
) -> Result<Reply, NoMemory>
    ensures { IfOk result (λ reply. reply_view reply ≡ runs_answer prefix.now (made_view made) (file_view scaled)
        (report_view runs.now.original) (report_view runs.now.scaled)) }
{
    let (bytes, summary) = scaled;
    Ok(Reply {
        text: text_of(alloc, &summary, runs)?,
        stores: stores_of(alloc, prefix, made, bytes)?,
        status: status_of(runs.scaled.end),
    })
}

// How an image runs with the machine file and the input of a made program. How far the run is is told.
fn report_of<P: Progress>(
    alloc: Global,
    image: &[u8],
    made: &Made,
    loops: Option<&[u8]>,
    progress: &mut P,
) -> Result<RunReport, Stop>
    ensures { Answers report_view result (simulated image.now made.now.machine.items made.now.input.items
        (option_map (λ l. l.now) loops.entry)) }
{
    let files = RunFiles {
        image,
        machine: &made.machine,
        input: &made.input,
        loops,
    };
    simulate_with_progress(alloc, &files, progress)
}

// How the made image runs with its loop file, and the scaled one without one.
fn scaled_reply<P: Progress>(
    alloc: Global,
    prefix: &str,
    made: Made,
    scaled: (Vec<u8>, Summary),
    progress: &mut P,
) -> Result<Reply, Stop>
    ensures { AnswersBy reply_view result (λ reply. told_answer reply ≡ scaled_answer prefix.now (made_view made) (file_view scaled)) }
{
    let original = report_of(alloc, &made.image, &made, Some(&made.loops), progress)?;
    let runs = MadeRuns {
        original,
        scaled: report_of(alloc, &scaled.0, &made, None, progress)?,
    };
    Ok(reply_of(alloc, prefix, made, scaled, &runs)?)
}

/// What is told of a made program: its image runs with its loop file, and what it is rewritten to without one. How far the runs are is told, too.
pub fn made_reply<P: Progress>(
    alloc: Global,
    prefix: &str,
    made: Made,
    progress: &mut P,
) -> Result<Reply, Stop>
    requires image { length made.image.items ≤ IMAGE_LIMIT }
    requires machine { length made.machine.items ≤ FILE_LIMIT }
    requires loops { length made.loops.items ≤ FILE_LIMIT }
    ensures { AnswersBy reply_view result (IsMadeReply prefix.now (made_view made)) }
{
    let scaled = rewrite(alloc, &made.image, &made.machine, &made.loops)?;
    scaled_reply(alloc, prefix, made, scaled, progress)
}
