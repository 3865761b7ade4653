//! What `all` gives for its files.

ghost use Rattle.std.specs.Prelude.{◌≡◌, ◌<◌, ◌≤◌, ◌++◌, length, string_bytes, true, None, IfOk, IfSome, OnOk, false};
ghost use Rattle.std.specs.List.{AllZip};
ghost use Rattle.scale_base.specs.declared.limits.TheConstants.{FILE_LIMIT};
ghost use Rattle.loop_drafts.specs.Kept.{AreBytes};
ghost use Rattle.host_runs.specs.Views.{files_view, reply_view};
ghost use Rattle.pace_tool.specs.Answer.{Makes};
ghost use Rattle.pace_tool.specs.Command.{wants_of};
ghost use Rattle.pace_tool.specs.Drafts.{Drafts};
ghost use Rattle.pace_tool.specs.InOne.{MakesDrafted, MakesFitted, MakesInOne, MakesOfPlain, MakesOfTried, behind, open_answer, open_pieces};
ghost use Rattle.pace_tool.specs.Views.{draft_view, in_one_view};
ghost use Rattle.version_fits.specs.Chosen.{IsChosenVersion};

use crate::command::InOne;
use crate::fit::{Inputs, fit_reply};
use crate::plain::plain_image;
use crate::texts::{drafted_text, version_text};
use host_runs::{ProgramFiles, Reply};
use loop_drafts::{DraftInputs, LoopDraft, Piece, draft_loops, printed_text};
use run_progress::Progress;
use scale_base::{FILE_LIMIT, IMAGE_LIMIT, NoMemory, Stop};
use std::alloc::{AllocError, Global};
use version_fits::{ChosenVersion, FitGoal, choose_version};

/// What an image is fitted to: a machine, inputs, how many bytes an input has at most, where that is told, and the name under which the choice is stored.
#[derive(Clone, Copy)]
struct Goal<'f, 'n> {
    machine: &'f [u8],
    inputs: Inputs<'f>,
    most: Option<u32>,
    out: &'n str,
    versions: bool,
    ghost short: { length machine.now ≤ FILE_LIMIT },
}

/// An image that is fitted, and what it is fitted to.
#[derive(Clone, Copy)]
struct Fitting<'a> {
    goal: &'a Goal<'a, 'a>,
    image: &'a [u8],
}

// Adds the pieces of loops that have no bound.
fn push_open(text: &mut String, pieces: &[Piece]) -> Result<(), AllocError>
    ensures { OnOk result (string_bytes text.new ≡ string_bytes text.old ++ open_pieces pieces.now) }
{
    match pieces {
        [] => Ok(()),
        [first, others @ ..] => {
            if first.is_open {
                text.push_str(first.text.as_str())?;
            }
            push_open(text, others)
        }
    }
}

// What is told where a loop is open.
fn open_reply(alloc: Global, mut text: String, draft: &LoopDraft) -> Result<Reply, NoMemory>
    ensures { IfOk result (λ reply. reply_view reply ≡ open_answer (string_bytes text) draft.now) }
{
    push_open(&mut text, &draft.pieces)?;
    Ok(Reply {
        stores: Vec::new(alloc),
        text,
        status: 1,
    })
}

/// The reply with a text before its own, unless it is a refusal.
pub fn told_behind(mut text: String, reply: Reply) -> Result<Reply, NoMemory>
    ensures { IfOk result (λ told. reply_view told ≡ behind (string_bytes text) (reply_view reply)) }
{
    if reply.status != 0 {
        return Ok(reply);
    }
    text.push_str(reply.text.as_str())?;
    Ok(Reply {
        stores: reply.stores,
        text,
        status: 0,
    })
}

// The image fitted, with its draft as its loop file.
fn fitted_reply<P: Progress>(
    alloc: Global,
    fitting: &Fitting<'_>,
    file: &[u8],
    text: String,
    progress: &mut P,
) -> Result<Reply, NoMemory>
    requires { length file.now ≤ FILE_LIMIT }
    ensures { IfOk result (λ reply. MakesFitted fitting.now.goal.now.machine.now fitting.now.goal.now.out.now
        (files_view fitting.now.goal.now.inputs.items.now) fitting.now.image.now file.now (string_bytes text) (reply_view reply)) }
{
    let Fitting { goal, image } = *fitting;
    if image.len() > IMAGE_LIMIT {
        return Reply::too_large(alloc, goal.out);
    }
    let files = ProgramFiles {
        image,
        machine: goal.machine,
        loops: file,
    };
    let reply = fit_reply(alloc, goal.out, &files, &goal.inputs, progress)?;
    told_behind(text, reply)
}

// What is made of a draft of the image's loops.
fn drafted_reply<P: Progress>(
    alloc: Global,
    fitting: &Fitting<'_>,
    mut text: String,
    draft: &LoopDraft,
    progress: &mut P,
) -> Result<Reply, NoMemory>
    requires { Drafts fitting.now.image.now fitting.now.goal.now.most false (Ok (draft_view draft.now)) }
    ensures { IfOk result (λ reply. MakesDrafted fitting.now.goal.now.machine.now fitting.now.goal.now.out.now
        (files_view fitting.now.goal.now.inputs.items.now) fitting.now.image.now (string_bytes text) (Ok (draft_view draft.now))
        (reply_view reply)) }
{
    text.push_str(drafted_text(alloc, draft)?.as_str())?;
    if draft.unbounded > 0 {
        return open_reply(alloc, text, draft);
    }
    let file = printed_text(alloc, &draft.pieces)?;
    fitted_reply(alloc, fitting, file.as_bytes(), text, progress)
}

// What is made of the image that is fitted.
fn tried_reply<P: Progress>(
    alloc: Global,
    goal: &Goal<'_, '_>,
    image: &[u8],
    text: String,
    progress: &mut P,
) -> Result<Reply, NoMemory>
    ensures { IfOk result (λ reply. MakesOfTried goal.now.machine.now goal.now.out.now goal.now.most
        (files_view goal.now.inputs.items.now) image.now (string_bytes text) (reply_view reply)) }
{
    let inputs = DraftInputs {
        items: goal.inputs.items,
        most: goal.most,
        trusts: false,
    };
    match draft_loops(alloc, image, &inputs, progress) {
        Ok(draft) => {
            let fitting = Fitting { goal, image };
            drafted_reply(alloc, &fitting, text, &draft, progress)
        }
        Err(Stop::Refused(refusal)) => Reply::refused(alloc, &refusal),
        Err(Stop::Memory) => Err(NoMemory),
    }
}

// The version of an image that is fitted in its place, if there is one.
fn version_of<P: Progress>(
    alloc: Global,
    goal: &Goal<'_, '_>,
    image: &[u8],
    progress: &mut P,
) -> Result<Option<ChosenVersion>, NoMemory>
    ensures { IfOk result (λ chosen. IfSome chosen (IsChosenVersion image.now goal.now.machine.now goal.now.most None
        (files_view goal.now.inputs.items.now))) }
{
    if image.len() > IMAGE_LIMIT {
        return Ok(None);
    }
    let to = FitGoal {
        machine: goal.machine,
        inputs: goal.inputs.items,
        most: goal.most,
        given: None,
    };
    choose_version(alloc, &to, image, progress)
}

// What is made of an image, where versions are tried and one is chosen.
fn version_reply<P: Progress>(
    alloc: Global,
    fitting: &Fitting<'_>,
    mut text: String,
    chosen: &ChosenVersion,
    progress: &mut P,
) -> Result<Reply, NoMemory>
    requires { IsChosenVersion fitting.now.image.now fitting.now.goal.now.machine.now fitting.now.goal.now.most None
        (files_view fitting.now.goal.now.inputs.items.now) chosen.now }
    ensures { IfOk result (λ reply. MakesOfPlain fitting.now.goal.now.machine.now fitting.now.goal.now.out.now fitting.now.goal.now.most
        (files_view fitting.now.goal.now.inputs.items.now) true (Ok (fitting.now.image.now, string_bytes text)) (reply_view reply)) }
{
    text.push_str(version_text(alloc, chosen)?.as_str())?;
    tried_reply(alloc, fitting.goal, &chosen.version.file, text, progress)
}

// The same, where none is.
fn unversioned_reply<P: Progress>(
    alloc: Global,
    goal: &Goal<'_, '_>,
    image: &[u8],
    mut text: String,
    progress: &mut P,
) -> Result<Reply, NoMemory>
    ensures { IfOk result (λ reply. MakesOfPlain goal.now.machine.now goal.now.out.now goal.now.most
        (files_view goal.now.inputs.items.now) true (Ok (image.now, string_bytes text)) (reply_view reply)) }
{
    text.push_str("no version\n")?;
    tried_reply(alloc, goal, image, text, progress)
}

// The same, where versions are tried.
fn versions_reply<P: Progress>(
    alloc: Global,
    goal: &Goal<'_, '_>,
    image: &[u8],
    text: String,
    progress: &mut P,
) -> Result<Reply, NoMemory>
    ensures { IfOk result (λ reply. MakesOfPlain goal.now.machine.now goal.now.out.now goal.now.most
        (files_view goal.now.inputs.items.now) true (Ok (image.now, string_bytes text)) (reply_view reply)) }
{
    match version_of(alloc, goal, image, progress)? {
        Some(chosen) => {
            let fitting = Fitting { goal, image };
            version_reply(alloc, &fitting, text, &chosen, progress)
        }
        None => unversioned_reply(alloc, goal, image, text, progress),
    }
}

// What is made of the image that goes on.
fn plain_reply<P: Progress>(
    alloc: Global,
    goal: &Goal<'_, '_>,
    image: &[u8],
    text: String,
    progress: &mut P,
) -> Result<Reply, NoMemory>
    ensures { IfOk result (λ reply. MakesOfPlain goal.now.machine.now goal.now.out.now goal.now.most
        (files_view goal.now.inputs.items.now) goal.now.versions (Ok (image.now, string_bytes text)) (reply_view reply)) }
{
    if goal.versions {
        versions_reply(alloc, goal, image, text, progress)
    } else {
        tried_reply(alloc, goal, image, text, progress)
    }
}

// What is made of an image.
fn image_reply<P: Progress>(
    alloc: Global,
    goal: &Goal<'_, '_>,
    image: &[u8],
    progress: &mut P,
) -> Result<Reply, NoMemory>
    requires { length image.now ≤ IMAGE_LIMIT }
    ensures { IfOk result (λ reply. MakesInOne image.now goal.now.machine.now goal.now.most
        (files_view goal.now.inputs.items.now) goal.now.versions goal.now.out.now (reply_view reply)) }
{
    match plain_image(alloc, image) {
        Ok((plain, text)) => plain_reply(alloc, goal, &plain, text, progress),
        Err(Stop::Refused(refusal)) => Reply::refused(alloc, &refusal),
        Err(Stop::Memory) => Err(NoMemory),
    }
}

// What is made of an image of bytes.
fn goal_reply<P: Progress>(
    alloc: Global,
    goal: &Goal<'_, '_>,
    image: &[u8],
    progress: &mut P,
) -> Result<Reply, NoMemory>
    requires { length image.now ≤ IMAGE_LIMIT }
    ensures bytes { AreBytes image.now }
    ensures told { IfOk result (λ reply. MakesInOne image.now goal.now.machine.now goal.now.most
        (files_view goal.now.inputs.items.now) goal.now.versions goal.now.out.now (reply_view reply)) }
{
    image_reply(alloc, goal, image, progress)
}

/// What `all` makes of the files that were loaded. How far it is is told.
pub fn in_one_made<P: Progress>(
    alloc: Global,
    command: &InOne<'_>,
    files: &[Vec<u8>],
    progress: &mut P,
) -> Result<Reply, NoMemory>
    requires { AllZip (λ want file. length file ≤ want.1) (wants_of (in_one_view command.now)) (files_view files.now) }
    ensures { IfOk result (λ reply. Makes (in_one_view command.now) (files_view files.now) (reply_view reply)) }
{
    let (first, given) = files.split_at(2);
    let inputs = Inputs { items: given };
    let image = &first[0];
    let goal = Goal {
        machine: &first[1],
        inputs,
        most: command.limit.most,
        out: command.out,
        versions: command.versions,
    };
    goal_reply(alloc, &goal, image, progress)
}
