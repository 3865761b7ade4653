//! What the commands make of their files.

ghost use Rattle.std.specs.Prelude.{◌≤◌, length, IfOk};
ghost use Rattle.std.specs.List.{AllZip};
ghost use Rattle.host_runs.specs.Views.{files_view, reply_view};
ghost use Rattle.pace_tool.specs.Answer.{Makes};
ghost use Rattle.pace_tool.specs.Command.{wants_of};
ghost use Rattle.pace_tool.specs.Views.{command_view};

use crate::command::{Job, wants};
use crate::draw_plan::draw_plan_reply;
use crate::draw_run::draw_run_reply;
use crate::explain::explain_reply;
use crate::fit::fit_made;
use crate::in_one::in_one_made;
use crate::jumps::jumps_reply;
use crate::loops::loops_reply;
use crate::show::show_reply;
use crate::split::split_reply;
use crate::versions::versions_made;
use host_runs::{FileCommand, ProgramFiles, Reply, Want};
use loop_drafts::DraftInputs;
use run_progress::Progress;
use scale_base::NoMemory;
use std::alloc::{AllocError, Global};

/// What is made of the files that were loaded. How far it is is told.
#[tactic(auto, using(host_runs::proofs::Laws::limits_alone))]
fn made_of<P: Progress>(
    alloc: Global,
    command: &Job<'_>,
    files: &[Vec<u8>],
    progress: &mut P,
) -> Result<Reply, NoMemory>
    requires { AllZip (λ want file. length file ≤ want.1) (wants_of (command_view command.now)) (files_view files.now) }
    ensures { IfOk result (λ reply. Makes (command_view command.now) (files_view files.now) (reply_view reply)) }
{
    match command {
        Job::Fit(fit) => fit_made(alloc, fit, files, progress),
        Job::FitVersions(fit) => versions_made(alloc, fit, files, progress),
        Job::Show(_) => show_reply(alloc, &ProgramFiles::of(files)),
        Job::Loops(loops) => {
            let inputs = DraftInputs {
                items: &files[1..],
                most: loops.limit.most,
                trusts: loops.trusts,
            };
            loops_reply(alloc, loops.out, &files[0], &inputs, progress)
        }
        Job::Explain(_) => explain_reply(alloc, &ProgramFiles::of(files)),
        Job::DrawRun(draw) => draw_run_reply(alloc, draw, &files[0], &files[1..], progress),
        Job::DrawPlan(draw) => draw_plan_reply(alloc, draw.out, &ProgramFiles::of(files)),
        Job::Jumps(jumps) => jumps_reply(alloc, jumps.out, &files[0]),
        Job::Split(split) => split_reply(alloc, split.out, &files[0]),
        Job::InOne(command) => in_one_made(alloc, command, files, progress),
    }
}

impl FileCommand for Job<'_> {
    ghost use Rattle.pace_tool.specs.Answer.{Makes};
    ghost use Rattle.pace_tool.specs.Command.{may_give, wants_of};
    ghost use Rattle.pace_tool.specs.Views.{command_view};
    ghost use Rattle.std.specs.Prelude.{refl};

    ghost loads = { λ command. wants_of (command_view command) };

    ghost makes = { λ command. Makes (command_view command) };

    ghost may_give = { λ _. may_give };

    ghost may_refuse = { λ _. refl };

    fn wants<'a>(&'a self, alloc: Global) -> Result<Vec<Want<'a>>, AllocError> {
        wants(alloc, self)
    }

    fn reply<P: Progress>(
        &self,
        alloc: Global,
        files: &[Vec<u8>],
        progress: &mut P,
    ) -> Result<Reply, NoMemory> {
        made_of(alloc, self, files, progress)
    }
}
