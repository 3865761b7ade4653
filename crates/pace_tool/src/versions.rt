//! What `fit` gives for its files where versions are tried.

ghost use Rattle.std.specs.Prelude.{◌≡◌, ◌≤◌, length, string_bytes, Some, None, IfOk, IfSome};
ghost use Rattle.std.specs.List.{AllZip};
ghost use Rattle.host_runs.specs.Views.{files_view, reply_view};
ghost use Rattle.version_fits.specs.Chosen.{IsChosenVersion};
ghost use Rattle.pace_tool.specs.Answer.{Makes};
ghost use Rattle.pace_tool.specs.Command.{wants_of};
ghost use Rattle.pace_tool.specs.Versions.{MakesVersionFit};
ghost use Rattle.pace_tool.specs.Views.{versions_view};

use crate::command::Fit;
use crate::fit::{Inputs, fit_reply};
use crate::in_one::told_behind;
use crate::texts::version_text;
use host_runs::{ProgramFiles, Reply};
use run_progress::Progress;
use scale_base::NoMemory;
use std::alloc::Global;
use version_fits::{ChosenVersion, FitGoal, choose_version};

/// The files of a program, the inputs that it is fitted to, and the name under which the choice is stored.
#[derive(Clone, Copy)]
struct Order<'f, 'n> {
    files: ProgramFiles<'f>,
    inputs: Inputs<'f>,
    out: &'n str,
}

// The version of a program that is fitted in its place, if there is one.
fn version_of<P: Progress>(
    alloc: Global,
    order: &Order<'_, '_>,
    progress: &mut P,
) -> Result<Option<ChosenVersion>, NoMemory>
    ensures { IfOk result (λ chosen. IfSome chosen (IsChosenVersion order.now.files.image.now order.now.files.machine.now None
        (Some order.now.files.loops.now) (files_view order.now.inputs.items.now))) }
{
    let to = FitGoal {
        machine: order.files.machine,
        inputs: order.inputs.items,
        most: None,
        given: Some(order.files.loops),
    };
    choose_version(alloc, &to, order.files.image, progress)
}

// The version fitted, with its own loop file.
fn version_reply<P: Progress>(
    alloc: Global,
    order: &Order<'_, '_>,
    chosen: &ChosenVersion,
    progress: &mut P,
) -> Result<Reply, NoMemory>
    requires { IsChosenVersion order.now.files.image.now order.now.files.machine.now None (Some order.now.files.loops.now)
        (files_view order.now.inputs.items.now) chosen.now }
    ensures { IfOk result (λ reply. MakesVersionFit order.now.files.image.now order.now.files.machine.now order.now.files.loops.now
        (files_view order.now.inputs.items.now) order.now.out.now (reply_view reply)) }
{
    let text = version_text(alloc, chosen)?;
    let own = ProgramFiles {
        image: &chosen.version.file,
        machine: order.files.machine,
        loops: chosen.loops.as_bytes(),
    };
    let reply = fit_reply(alloc, order.out, &own, &order.inputs, progress)?;
    told_behind(text, reply)
}

// The program itself fitted.
fn unversioned_reply<P: Progress>(
    alloc: Global,
    order: &Order<'_, '_>,
    progress: &mut P,
) -> Result<Reply, NoMemory>
    ensures { IfOk result (λ reply. MakesVersionFit order.now.files.image.now order.now.files.machine.now order.now.files.loops.now
        (files_view order.now.inputs.items.now) order.now.out.now (reply_view reply)) }
{
    let text = String::from_str(alloc, "no version\n")?;
    let reply = fit_reply(alloc, order.out, &order.files, &order.inputs, progress)?;
    told_behind(text, reply)
}

// What `fit` gives.
fn versions_reply<P: Progress>(
    alloc: Global,
    order: &Order<'_, '_>,
    progress: &mut P,
) -> Result<Reply, NoMemory>
    ensures { IfOk result (λ reply. MakesVersionFit order.now.files.image.now order.now.files.machine.now order.now.files.loops.now
        (files_view order.now.inputs.items.now) order.now.out.now (reply_view reply)) }
{
    match version_of(alloc, order, progress)? {
        Some(chosen) => version_reply(alloc, order, &chosen, progress),
        None => unversioned_reply(alloc, order, progress),
    }
}

/// What `fit` makes of the files that were loaded, where versions are tried. How far it is is told.
#[tactic(auto, using(host_runs::proofs::Laws::limits_alone))]
pub fn versions_made<P: Progress>(
    alloc: Global,
    command: &Fit<'_>,
    files: &[Vec<u8>],
    progress: &mut P,
) -> Result<Reply, NoMemory>
    requires { AllZip (λ want file. length file ≤ want.1) (wants_of (versions_view command.now)) (files_view files.now) }
    ensures { IfOk result (λ reply. Makes (versions_view command.now) (files_view files.now) (reply_view reply)) }
{
    let (first, given) = files.split_at(3);
    let order = Order {
        files: ProgramFiles::of(first),
        inputs: Inputs { items: given },
        out: command.out,
    };
    versions_reply(alloc, &order, progress)
}
