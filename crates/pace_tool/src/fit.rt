//! What `fit` gives for its files.

ghost use Rattle.std.specs.Prelude.{◌≤◌, length, IfOk};
ghost use Rattle.std.specs.List.{All, AllZip};
ghost use Rattle.scale_base.specs.declared.limits.TheConstants.{FILE_LIMIT};
ghost use Rattle.host_runs.specs.Answer.{Tells, stored_answer};
ghost use Rattle.host_runs.specs.Views.{files_view, reply_view};
ghost use Rattle.pace_fit.specs.Endings.{endings_on};
ghost use Rattle.pace_fit.specs.Finding.{IsPrepared};
ghost use Rattle.pace_tool.specs.Answer.{Makes};
ghost use Rattle.pace_tool.specs.Fits.{Fits, MakesFit};
ghost use Rattle.pace_tool.specs.Command.{wants_of};
ghost use Rattle.pace_tool.specs.Texts as texts;
ghost use Rattle.pace_tool.specs.Views.{fit_view};

use crate::command::Fit;
use crate::texts::fitted_text;
use gain_tuner::GivenFiles;
use host_runs::{ProgramFiles, Reply};
use pace_fit::{Prepared, choose, prepare};
use paced_images::Proposal;
use run_progress::Progress;
use scale_base::{FILE_LIMIT, NoMemory, Stop};
use std::alloc::Global;
use version_fits::proposals_of;

/// The bytes of up to 64 inputs, each within its limit.
#[derive(Clone, Copy)]
pub struct Inputs<'a> {
    pub items: &'a [Vec<u8>],
    ghost few: { length items.now ≤ 64 },
    ghost short: { All (λ input. length input.items ≤ FILE_LIMIT) items.now },
}

/// What is to be fitted: the files of a program, the inputs, and the name under which the choice is stored.
#[derive(Clone, Copy)]
struct Order<'f, 'n> {
    files: ProgramFiles<'f>,
    inputs: Inputs<'f>,
    out: &'n str,
}

// The choice among proposals, with its numbers and the name under which it is stored.
fn chosen_of<P: Progress>(
    alloc: Global,
    order: &Order<'_, '_>,
    prepared: &Prepared,
    proposals: &[Proposal],
    progress: &mut P,
) -> Result<Reply, NoMemory>
    requires prepared { IsPrepared order.now.files.image.now order.now.files.machine.now order.now.files.loops.now
        (files_view order.now.inputs.items.now) prepared.now }
    requires proposals { length proposals.now ≤ 64 }
    ensures { let endings = endings_on order.now.files.image.now order.now.files.machine.now order.now.files.loops.now (files_view order.now.inputs.items.now) in
        IfOk result (λ reply. Tells (Fits order.now.files.image.now order.now.files.machine.now order.now.files.loops.now (files_view order.now.inputs.items.now) proposals.now) (stored_answer (texts.fitted_text endings proposals.now) order.now.out.now) (reply_view reply)) }
{
    let program = GivenFiles {
        image: order.files.image,
        machine: order.files.machine,
        loops: order.files.loops,
        inputs: order.inputs.items,
    };
    let given = choose(alloc, &program, prepared, proposals, progress)?;
    let text = fitted_text(alloc, &prepared.endings, proposals, &given.1)?;
    Reply::of_file(alloc, order.out, given.0, text, 0)
}

// What `fit` gives for a prepared program.
fn prepared_reply<P: Progress>(
    alloc: Global,
    order: &Order<'_, '_>,
    prepared: &Prepared,
    progress: &mut P,
) -> Result<Reply, NoMemory>
    requires { IsPrepared order.now.files.image.now order.now.files.machine.now order.now.files.loops.now
        (files_view order.now.inputs.items.now) prepared.now }
    ensures { IfOk result (λ reply. MakesFit order.now.files.image.now order.now.files.machine.now order.now.files.loops.now
        (files_view order.now.inputs.items.now) order.now.out.now (reply_view reply)) }
{
    let program = GivenFiles {
        image: order.files.image,
        machine: order.files.machine,
        loops: order.files.loops,
        inputs: order.inputs.items,
    };
    let proposals = proposals_of(alloc, &program, &prepared.endings, progress)?;
    chosen_of(alloc, order, prepared, &proposals, progress)
}

/// What `fit` gives for its three files and its inputs. How far it is is told.
pub fn fit_reply<'f, P: Progress>(
    alloc: Global,
    out: &str,
    files: &ProgramFiles<'f>,
    inputs: &Inputs<'f>,
    progress: &mut P,
) -> Result<Reply, NoMemory>
    ensures { IfOk result (λ reply. MakesFit files.now.image.now files.now.machine.now files.now.loops.now
        (files_view inputs.now.items.now) out.now (reply_view reply)) }
{
    let program = GivenFiles {
        image: files.image,
        machine: files.machine,
        loops: files.loops,
        inputs: inputs.items,
    };
    let order = Order {
        files: *files,
        inputs: *inputs,
        out,
    };
    match prepare(alloc, &program, progress) {
        Ok(prepared) => prepared_reply(alloc, &order, &prepared, progress),
        Err(Stop::Refused(refusal)) => Reply::refused(alloc, &refusal),
        Err(Stop::Memory) => Err(NoMemory),
    }
}

/// What `fit` makes of the files that were loaded. How far it is is told.
#[tactic(auto, using(host_runs::proofs::Laws::limits_alone))]
pub fn fit_made<P: Progress>(
    alloc: Global,
    command: &Fit<'_>,
    files: &[Vec<u8>],
    progress: &mut P,
) -> Result<Reply, NoMemory>
    requires { AllZip (λ want file. length file ≤ want.1) (wants_of (fit_view command.now)) (files_view files.now) }
    ensures { IfOk result (λ reply. Makes (fit_view command.now) (files_view files.now) (reply_view reply)) }
{
    let (first, given) = files.split_at(3);
    fit_reply(
        alloc,
        command.out,
        &ProgramFiles::of(first),
        &Inputs { items: given },
        progress,
    )
}
