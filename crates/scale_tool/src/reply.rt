//! What a command gives, made whole before the first of it is stored or printed.

ghost use Rattle.std.specs.Prelude.{◌≡◌, ◌≤◌, [], length, option_map, string_bytes, IfOk, Some, Ok};
ghost use Rattle.std.specs.List.{AllZip};
ghost use Rattle.power_model.specs.Report.{report_view};
ghost use Rattle.gain_tuner.specs.Choice.{IsTuning};
ghost use Rattle.image_check.specs.Checked.{IsChecked};
ghost use Rattle.image_lower.specs.Lowered.{IsLowered};
ghost use Rattle.input_survey.specs.Surveyed.{IsSurveyed};
ghost use Rattle.scale_report.specs.Texts.{lowered_text, summary_text, survey_text, tuned_text};
ghost use Rattle.scaler.specs.Held.{IsHeld};
ghost use Rattle.scaler.specs.Planned.{IsPlanned};
ghost use Rattle.scaler.specs.Rewritten.{IsRewritten};
ghost use Rattle.host_runs.specs.Answer.{Tells, stored_answer, text_answer};
ghost use Rattle.host_runs.specs.Views.{file_view, files_view, given_by, reply_view};
ghost use Rattle.scale_tool.specs.Answer.{AreBytes, run_answer, run_status, text_of_plan, verdict_answer, verdict_status, MakesMade, MakesRun, Makes};
ghost use Rattle.scale_tool.specs.Command.{wants_of};
ghost use Rattle.scale_tool.specs.Scaled.{IsTold, told_answer};
ghost use Rattle.scale_tool.specs.Views.{work_view};

use crate::command::{Work, wants};
use crate::making::made_reply;
use crate::numbers::Size;
use crate::program_files::{Inputs, PairFiles};
use gain_tuner::{GivenFiles, tune_with_progress};
use host_runs::{FileCommand, ProgramFiles, Reply, Want};
use input_survey::{SurveyFiles, survey_with_progress};
use power_model::RunReport;
use run_progress::Progress;
use scale_base::{End, IMAGE_LIMIT, Lowered, NoMemory, Stop, Summary, Tuned, Verdict};
use scale_report::{
    lowered_text, plan_text, run_text, summary_text, survey_text, tuned_text, verdict_text,
};
use speed_sim::{RunFiles, simulate_with_progress};
use std::alloc::{AllocError, Global};

/// The status of a run.
pub fn status_of(end: End) -> u8
    ensures { result ≡ run_status end }
{
    match end {
        End::Exited(_) => 0,
        End::Trapped(_) => 5,
        End::OutOfSteps => 6,
    }
}

// The status of a verdict.
fn status_of_verdict(verdict: &Verdict) -> u8
    ensures { result ≡ verdict_status verdict.now }
{
    match verdict {
        Verdict::Yes(_) => 0,
        Verdict::No(_) => 7,
    }
}

// `hold`: the file that it stores, and its summary.
fn hold_reply(alloc: Global, out: &str, files: &ProgramFiles<'_>) -> Result<Reply, Stop>
    ensures { IsTold (Tells (IsHeld files.now.image.now files.now.machine.now files.now.loops.now)
        (stored_answer summary_text out.now)) result }
{
    let given = scaler::hold(alloc, files.image, files.machine, files.loops)?;
    Ok(summary_file(alloc, out, given)?)
}

// `rewrite`: the file that it stores, and its summary.
fn rewrite_reply(alloc: Global, out: &str, files: &ProgramFiles<'_>) -> Result<Reply, Stop>
    ensures { IsTold (Tells (IsRewritten files.now.image.now files.now.machine.now files.now.loops.now)
        (stored_answer summary_text out.now)) result }
{
    let given = scaler::rewrite(alloc, files.image, files.machine, files.loops)?;
    Ok(summary_file(alloc, out, given)?)
}

// A file under a name, with its summary.
fn summary_file(alloc: Global, out: &str, given: (Vec<u8>, Summary)) -> Result<Reply, NoMemory>
    ensures { IfOk result (λ reply. reply_view reply ≡ stored_answer summary_text out.now (Ok (file_view given))) }
{
    let (bytes, summary) = given;
    let text = summary_text(alloc, &summary)?;
    Reply::of_file(alloc, out, bytes, text, 0)
}

// `report`: the summary of what `rewrite` would store, and its lines.
fn report_reply(alloc: Global, files: &ProgramFiles<'_>) -> Result<Reply, Stop>
    ensures { IsTold (Tells (IsPlanned files.now.image.now files.now.machine.now files.now.loops.now)
        (text_answer text_of_plan)) result }
{
    let plan = scaler::plan(alloc, files.image, files.machine, files.loops)?;
    let text = plan_text(alloc, &plan)?;
    Ok(text_reply(alloc, text, 0))
}

// A text, and nothing to store.
fn text_reply(alloc: Global, text: String, status: u8) -> Reply
    ensures { reply_view result ≡ record { stores = []; text = string_bytes text; status = status } }
{
    Reply {
        stores: Vec::new(alloc),
        text,
        status,
    }
}

// `simulate`: what the run wrote, and its report.
fn simulate_reply<P: Progress>(
    alloc: Global,
    out: &str,
    files: &RunFiles<'_>,
    progress: &mut P,
) -> Result<Reply, Stop>
    ensures { IsTold (MakesRun files.now.image.now files.now.machine.now files.now.input.now
        (option_map (λ l. l.now) files.now.loops) out.now) result }
{
    let report = simulate_with_progress(alloc, files, progress)?;
    Ok(run_file(alloc, out, report)?)
}

// What a run wrote, under a name, with its report.
fn run_file(alloc: Global, out: &str, report: RunReport) -> Result<Reply, NoMemory>
    ensures { IfOk result (λ reply. reply_view reply ≡ run_answer out.now (Ok (report_view report))) }
{
    let status = status_of(report.end);
    let text = run_text(alloc, &report)?;
    let bytes = report.output;
    Reply::of_file(alloc, out, bytes, text, status)
}

// `make`: the files of the program of a number and a size, under names that begin alike, and how it runs.
fn make_reply<P: Progress>(
    alloc: Global,
    number: u64,
    size: Size,
    prefix: &str,
    progress: &mut P,
) -> Result<Reply, Stop>
    ensures { IsTold (MakesMade number size.blocks prefix.now) result }
{
    let made = image_maker::make(alloc, number, size.blocks)?;
    made_reply(alloc, prefix, made, progress)
}

// `lower`: the lowered image, and what was lowered.
fn lower_reply(alloc: Global, out: &str, image: &[u8], jumps: &[u8]) -> Result<Reply, Stop>
    requires { length image.now ≤ IMAGE_LIMIT }
    ensures bytes { AreBytes image.now }
    ensures told { IsTold (Tells (IsLowered image.now jumps.now) (stored_answer lowered_text out.now)) result }
{
    let given = image_lower::lower(alloc, image, jumps)?;
    Ok(lowered_file(alloc, out, given)?)
}

// A lowered image under a name, with what was lowered.
fn lowered_file(alloc: Global, out: &str, given: (Vec<u8>, Lowered)) -> Result<Reply, NoMemory>
    ensures { IfOk result (λ reply. reply_view reply ≡ stored_answer lowered_text out.now (Ok (file_view given))) }
{
    let (bytes, counts) = given;
    let text = lowered_text(alloc, &counts)?;
    Reply::of_file(alloc, out, bytes, text, 0)
}

// `check`: the verdict.
fn check_reply(alloc: Global, files: &PairFiles<'_>) -> Result<Reply, Stop>
    ensures bytes { AreBytes files.now.other.now }
    ensures told { IsTold (Tells (IsChecked files.now.image.now files.now.other.now files.now.machine.now files.now.loops.now)
        verdict_answer) result }
{
    let verdict = image_check::check(alloc, files.image, files.other, files.machine, files.loops)?;
    let text = verdict_text(alloc, &verdict)?;
    Ok(text_reply(alloc, text, status_of_verdict(&verdict)))
}

// `survey`: the runs on the inputs.
fn survey_reply<P: Progress>(
    alloc: Global,
    files: &PairFiles<'_>,
    inputs: &Inputs<'_>,
    progress: &mut P,
) -> Result<Reply, Stop>
    ensures { IsTold (Tells (IsSurveyed files.now.image.now files.now.other.now files.now.machine.now files.now.loops.now
        (files_view inputs.now.items.now)) (text_answer survey_text)) result }
{
    let given = SurveyFiles {
        image: files.image,
        scaled: files.other,
        machine: files.machine,
        loops: files.loops,
    };
    let report = survey_with_progress(alloc, &given, inputs.items, progress)?;
    let text = survey_text(alloc, &report)?;
    Ok(text_reply(alloc, text, 0))
}

// `tune`: the file of the choice, and its numbers.
fn tune_reply<'f, P: Progress>(
    alloc: Global,
    out: &str,
    files: &ProgramFiles<'f>,
    inputs: &Inputs<'f>,
    progress: &mut P,
) -> Result<Reply, Stop>
    ensures { IsTold (Tells (IsTuning files.now.image.now files.now.machine.now files.now.loops.now
        (files_view inputs.now.items.now)) (stored_answer tuned_text out.now)) result }
{
    let files = GivenFiles {
        image: files.image,
        machine: files.machine,
        loops: files.loops,
        inputs: inputs.items,
    };
    let given = tune_with_progress(alloc, &files, progress)?;
    Ok(tuned_file(alloc, out, given)?)
}

// The file of a choice under a name, with its numbers.
fn tuned_file(alloc: Global, out: &str, given: (Vec<u8>, Tuned)) -> Result<Reply, NoMemory>
    ensures { IfOk result (λ reply. reply_view reply ≡ stored_answer tuned_text out.now (Ok (file_view given))) }
{
    let (bytes, tuned) = given;
    let text = tuned_text(alloc, &tuned)?;
    Reply::of_file(alloc, out, bytes, text, 0)
}

// The reply to a command for the files that were loaded, or its first refusal. How far it is is told.
#[tactic(auto, using(host_runs::proofs::Laws::limits_alone))]
fn work_reply<P: Progress>(
    alloc: Global,
    work: &Work<'_>,
    files: &[Vec<u8>],
    progress: &mut P,
) -> Result<Reply, Stop>
    requires { AllZip (λ want file. length file ≤ want.1) (wants_of (work_view work.now)) (files_view files.now) }
    ensures { IsTold (Makes (work_view work.now) (files_view files.now)) result }
{
    match *work {
        Work::Hold { out, .. } => hold_reply(alloc, out, &ProgramFiles::of(files)),
        Work::Rewrite { out, .. } => rewrite_reply(alloc, out, &ProgramFiles::of(files)),
        Work::Report { .. } => report_reply(alloc, &ProgramFiles::of(files)),
        Work::Simulate { out, loops, .. } => match loops {
            None => {
                let given = RunFiles {
                    image: &files[0],
                    machine: &files[1],
                    input: &files[2],
                    loops: None,
                };
                simulate_reply(alloc, out, &given, progress)
            }
            Some(_) => {
                let given = RunFiles {
                    image: &files[0],
                    machine: &files[1],
                    input: &files[2],
                    loops: Some(&files[3]),
                };
                simulate_reply(alloc, out, &given, progress)
            }
        },
        Work::Make {
            number,
            size,
            prefix,
        } => make_reply(alloc, number, size, prefix, progress),
        Work::Lower { out, .. } => lower_reply(alloc, out, &files[0], &files[1]),
        Work::Check { .. } => check_reply(alloc, &PairFiles::of(files)),
        Work::Survey { .. } => {
            let (first, inputs) = files.split_at(4);
            let pair = PairFiles::of(first);
            survey_reply(alloc, &pair, &Inputs { items: inputs }, progress)
        }
        Work::Tune { out, .. } => {
            let (first, inputs) = files.split_at(3);
            tune_reply(
                alloc,
                out,
                &ProgramFiles::of(first),
                &Inputs { items: inputs },
                progress,
            )
        }
    }
}

// The reply of what a command gives: itself, or that of the refusal.
fn reply_of_given(alloc: Global, given: Result<Reply, Stop>) -> Result<Reply, NoMemory>
    ensures { IfOk result (λ reply. option_map told_answer (given_by reply_view given) ≡ Some (reply_view reply)) }
{
    match given {
        Ok(reply) => Ok(reply),
        Err(Stop::Refused(refusal)) => Reply::refused(alloc, &refusal),
        Err(Stop::Memory) => Err(NoMemory),
    }
}

impl FileCommand for Work<'_> {
    ghost use Rattle.scale_tool.specs.Answer.{Makes};
    ghost use Rattle.scale_tool.specs.Command.{may_give, wants_of};
    ghost use Rattle.scale_tool.specs.Views.{work_view};
    ghost use Rattle.std.specs.Prelude.{Some};
    ghost use Rattle.std.proofs.Common.{rules};

    ghost loads = { λ work. wants_of (work_view work) };

    ghost makes = { λ work. Makes (work_view work) };

    ghost may_give = { λ work. may_give (Some (work_view work)) };

    ghost may_refuse = { Prim.search rules };

    fn wants<'a>(&'a self, alloc: Global) -> Result<Vec<Want<'a>>, AllocError> {
        wants(alloc, self)
    }

    // That of the command, or that of its refusal.
    fn reply<P: Progress>(
        &self,
        alloc: Global,
        files: &[Vec<u8>],
        progress: &mut P,
    ) -> Result<Reply, NoMemory> {
        let given = work_reply(alloc, self, files, progress);
        reply_of_given(alloc, given)
    }
}
