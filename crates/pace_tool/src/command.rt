//! The command and its files.

ghost use Rattle.std.specs.Prelude.{◌≡◌, ◌∷◌, option_map, slice_get, IfOk};
ghost use Rattle.host_runs.specs.Views.{want_views};
ghost use Rattle.pace_tool.specs.Command.{drawn_wants, image_wants, input_wants, machine_wants, program_wants, run_wants, wants_of};
ghost use Rattle.pace_tool.specs.Views.{command_view, texts, want_view};

use crate::input_names::{InputLimit, InputNames};
use host_runs::Want;
use scale_base::{FILE_LIMIT, IMAGE_LIMIT, STORED_LIMIT};
use std::alloc::{AllocError, Global};

/// The names of a program's files.
#[derive(Clone, Copy)]
pub struct Program<'a> {
    pub image: &'a str,
    pub machine: &'a str,
    pub loops: &'a str,
}

/// The command `fit`, with the names of its files: it stores the image whose runs over inputs take the least energy, of those that are proposed and the one
/// that runs at one level.
#[derive(Clone, Copy)]
pub struct Fit<'a> {
    pub program: Program<'a>,
    pub out: &'a str,
    pub inputs: InputNames<'a>,
}

/// The command `loops`, with the names of its files: it stores a draft of the loop file of a program, for inputs within a limit. It may trust stores of which nothing
/// is known.
#[derive(Clone, Copy)]
pub struct Loops<'a> {
    pub image: &'a str,
    pub out: &'a str,
    pub trusts: bool,
    pub inputs: InputNames<'a>,
    pub limit: InputLimit,
}

/// The command `jumps`, with the names of its files: it stores a draft of the jump file of a program.
#[derive(Clone, Copy)]
pub struct Jumps<'a> {
    pub image: &'a str,
    pub out: &'a str,
}

/// The command `split`, with the names of its files: it stores the image of a program whose code that turns is entered at one place each.
#[derive(Clone, Copy)]
pub struct Split<'a> {
    pub image: &'a str,
    pub out: &'a str,
}

/// The command `draw run`, with the names of its files, of images and of inputs by turns: it stores a picture of their runs.
#[derive(Clone, Copy)]
pub struct DrawRun<'a> {
    pub machine: &'a str,
    pub out: &'a str,
    pub names: &'a [&'a str],
}

/// The command `draw plan`, with the names of its files: it stores the graph of a program's code.
#[derive(Clone, Copy)]
pub struct DrawPlan<'a> {
    pub program: Program<'a>,
    pub out: &'a str,
}

/// The command `all`, with the names of its files: it drafts and lowers the jumps of a program, drafts its loops, for inputs within a limit, and stores the image that
/// is fitted to inputs. With versions, that may be one in which code is there twice.
#[derive(Clone, Copy)]
pub struct InOne<'a> {
    pub image: &'a str,
    pub machine: &'a str,
    pub out: &'a str,
    pub versions: bool,
    pub inputs: InputNames<'a>,
    pub limit: InputLimit,
}

/// A command.
#[derive(Clone, Copy)]
pub enum Job<'a> {
    Fit(Fit<'a>),
    /// The same, where versions are tried: images in which code is there twice.
    FitVersions(Fit<'a>),
    /// It prints what keeps the level of a program from being lowered.
    Show(Program<'a>),
    Loops(Loops<'a>),
    /// It prints where the worst cycles of a program go.
    Explain(Program<'a>),
    DrawRun(DrawRun<'a>),
    DrawPlan(DrawPlan<'a>),
    Jumps(Jumps<'a>),
    Split(Split<'a>),
    InOne(InOne<'a>),
}

/// The files that are loaded, in order.
pub fn wants<'a>(alloc: Global, command: &Job<'a>) -> Result<Vec<Want<'a>>, AllocError>
    ensures { IfOk result (λ wants. want_views wants.items ≡ wants_of (command_view command.now)) }
{
    let mut wants = Vec::new(alloc);
    while let Some(want) = want_at(command, wants.len()) {
        wants.push(want)?;
    }
    Ok(wants)
}

// The file that is loaded as that number, from 0.
fn want_at<'a>(command: &Job<'a>, number: usize) -> Option<Want<'a>>
    ensures { option_map want_view result ≡ slice_get (wants_of (command_view command.now)) number }
{
    match *command {
        Job::Fit(fit) => program_want(fit.program, fit.inputs.names, number),
        Job::FitVersions(fit) => program_want(fit.program, fit.inputs.names, number),
        Job::Show(program) => program_want(program, &[], number),
        Job::Loops(loops) => image_want(
            loops.image,
            loops.limit.bytes(),
            loops.inputs.names,
            number,
        ),
        Job::Explain(program) => program_want(program, &[], number),
        Job::DrawRun(draw) => drawn_want(draw.machine, draw.names, number),
        Job::DrawPlan(draw) => program_want(draw.program, &[], number),
        Job::Jumps(jumps) => image_want(jumps.image, FILE_LIMIT, &[], number),
        Job::Split(split) => image_want(split.image, FILE_LIMIT, &[], number),
        Job::InOne(command) => machine_want(
            command.image,
            command.machine,
            command.limit.bytes(),
            command.inputs.names,
            number,
        ),
    }
}

// Of a program's files and inputs.
fn program_want<'a>(program: Program<'a>, inputs: &[&'a str], number: usize) -> Option<Want<'a>>
    ensures { option_map want_view result ≡ slice_get (program_wants program.entry.image.now program.entry.machine.now
        program.entry.loops.now (input_wants FILE_LIMIT (texts inputs.now))) number }
{
    if number == 0 {
        Some(want(program.image, IMAGE_LIMIT))
    } else {
        tables_want(program.machine, program.loops, inputs, number - 1)
    }
}

// Of a machine file, a loop file and inputs.
fn tables_want<'a>(
    machine: &'a str,
    loops: &'a str,
    inputs: &[&'a str],
    number: usize,
) -> Option<Want<'a>>
    ensures { option_map want_view result ≡ slice_get ((machine.now, FILE_LIMIT) ∷ (loops.now, FILE_LIMIT) ∷
        input_wants FILE_LIMIT (texts inputs.now)) number }
{
    if number == 0 {
        Some(want(machine, FILE_LIMIT))
    } else {
        loops_want(loops, inputs, number - 1)
    }
}

// Of a loop file and inputs.
fn loops_want<'a>(loops: &'a str, inputs: &[&'a str], number: usize) -> Option<Want<'a>>
    ensures { option_map want_view result ≡ slice_get ((loops.now, FILE_LIMIT) ∷ input_wants FILE_LIMIT (texts inputs.now)) number }
{
    if number == 0 {
        Some(want(loops, FILE_LIMIT))
    } else {
        input_want(FILE_LIMIT, inputs, number - 1)
    }
}

// Of an image and inputs within a limit.
fn image_want<'a>(
    image: &'a str,
    limit: usize,
    inputs: &[&'a str],
    number: usize,
) -> Option<Want<'a>>
    ensures { option_map want_view result ≡ slice_get (image_wants image.now (input_wants limit (texts inputs.now))) number }
{
    if number == 0 {
        Some(want(image, IMAGE_LIMIT))
    } else {
        input_want(limit, inputs, number - 1)
    }
}

// Of an image, a machine and inputs within a limit.
fn machine_want<'a>(
    image: &'a str,
    machine: &'a str,
    limit: usize,
    inputs: &[&'a str],
    number: usize,
) -> Option<Want<'a>>
    ensures { option_map want_view result ≡ slice_get (machine_wants image.now machine.now (input_wants limit (texts inputs.now)))
        number }
{
    match number {
        0 => Some(want(image, IMAGE_LIMIT)),
        1 => Some(want(machine, FILE_LIMIT)),
        _ => input_want(limit, inputs, number - 2),
    }
}

// Of a machine, and of runs on it.
fn drawn_want<'a>(machine: &'a str, names: &[&'a str], number: usize) -> Option<Want<'a>>
    ensures { option_map want_view result ≡ slice_get (drawn_wants machine.now (texts names.now)) number }
{
    if number == 0 {
        Some(want(machine, FILE_LIMIT))
    } else {
        run_want(names, number - 1)
    }
}

// Of runs: their images and inputs by turns.
fn run_want<'a>(names: &[&'a str], number: usize) -> Option<Want<'a>>
    ensures { option_map want_view result ≡ slice_get (run_wants (texts names.now)) number }
{
    match names {
        [image, input, others @ ..] => match number {
            0 => Some(want(image, STORED_LIMIT)),
            1 => Some(want(input, FILE_LIMIT)),
            _ => run_want(others, number - 2),
        },
        _ => None,
    }
}

// Of inputs within a limit.
fn input_want<'a>(limit: usize, inputs: &[&'a str], number: usize) -> Option<Want<'a>>
    ensures { option_map want_view result ≡ slice_get (input_wants limit (texts inputs.now)) number }
{
    if number < inputs.len() {
        Some(want(inputs[number], limit))
    } else {
        None
    }
}

fn want(name: &str, limit: usize) -> Want<'_>
    ensures { (result.name.now ≡ name.now) × (result.limit ≡ limit) }
{
    Want {
        name,
        limit: limit as u64,
    }
}

/// The name of the file that is loaded as that number, from 0.
pub fn loaded_name<'a>(command: &Job<'a>, number: usize) -> Option<&'a str>
    ensures { option_map (λ name. name.now) result ≡ option_map (λ want. want.0) (slice_get (wants_of (command_view command.now)) number) }
{
    match want_at(command, number) {
        Some(want) => Some(want.name),
        None => None,
    }
}

/// The name of the file that is stored, if there is one.
pub fn stored_name<'a>(command: &Job<'a>) -> Option<&'a str> {
    match *command {
        Job::Fit(fit) => Some(fit.out),
        Job::FitVersions(fit) => Some(fit.out),
        Job::Show(_) => None,
        Job::Loops(loops) => Some(loops.out),
        Job::Explain(_) => None,
        Job::DrawRun(draw) => Some(draw.out),
        Job::DrawPlan(draw) => Some(draw.out),
        Job::Jumps(jumps) => Some(jumps.out),
        Job::Split(split) => Some(split.out),
        Job::InOne(command) => Some(command.out),
    }
}
