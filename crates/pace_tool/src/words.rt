//! The words of the command line, as `clap` reads them.

use crate::command::{DrawPlan, DrawRun, Fit, InOne, Job, Jumps, Loops, Program, Split};
use crate::input_names::{InputLimit, InputNames};
use clap::{Arg, ArgAction, ArgMatches, Command as CommandLine, Error};
use std::alloc::{AllocError, Global};

/// How many inputs a command takes at most.
const INPUTS: usize = 64;

/// How many bytes an input has at most, as a file has.
const INPUT_BYTES: i64 = 1_048_576;

/// How many names of images and inputs a picture has at most: two for each run.
const RUN_NAMES: usize = 16;

fn required<'a>(alloc: Global, name: &'a str, help: &'a str) -> Arg<'a> {
    Arg::new(alloc, name)
        .required(true)
        .action(ArgAction::Set)
        .help(help)
}

// A command over an image.
fn over_image<'a>(
    alloc: Global,
    name: &'a str,
    about: &'a str,
) -> Result<CommandLine<'a>, AllocError> {
    CommandLine::new(alloc, name)
        .about(about)
        .arg(required(alloc, "IMAGE", "The program, an ELF file"))
}

fn machine<'a>(alloc: Global) -> Arg<'a> {
    required(
        alloc,
        "MACHINE",
        "The machine file: levels, switches, deadline",
    )
}

// A command over an image, a machine file and a loop file.
fn over_program<'a>(
    alloc: Global,
    name: &'a str,
    about: &'a str,
) -> Result<CommandLine<'a>, AllocError> {
    over_image(alloc, name, about)?.arg(machine(alloc))?.arg(required(
        alloc,
        "LOOPS",
        "The loop file: how often loops turn",
    ))
}

fn inputs<'a>(alloc: Global, help: &'a str) -> Arg<'a> {
    Arg::new(alloc, "INPUT")
        .num_args(0..=INPUTS)
        .action(ArgAction::Append)
        .help(help)
}

fn input_bytes<'a>(alloc: Global) -> Arg<'a> {
    Arg::new(alloc, "input-bytes")
        .long("input-bytes")
        .action(ArgAction::Set)
        .value_name("N")
        .value_parser(clap::value_parser!(u32).range(0..=INPUT_BYTES))
        .help("Takes it that no input has more than N bytes: bounds of loops that read the input")
}

fn fit_line<'a>(alloc: Global) -> Result<CommandLine<'a>, AllocError> {
    over_program(
        alloc,
        "fit",
        "Stores the image of a program whose switches of speed save the most energy on its inputs",
    )?
    .arg(required(alloc, "OUT", "The name of the image that is stored"))?
    .arg(inputs(alloc, "Up to 64 inputs that the program is fitted to"))?
    .arg(
        Arg::new(alloc, "versions")
            .long("versions")
            .action(ArgAction::SetTrue)
            .help("Tries images in which code is there twice, for few turns of loops and for many"),
    )
}

fn show_line<'a>(alloc: Global) -> Result<CommandLine<'a>, AllocError> {
    over_program(
        alloc,
        "show",
        "Tells what keeps the speed of a program from being lowered, by edge and by loop",
    )
}

fn loops_line<'a>(alloc: Global) -> Result<CommandLine<'a>, AllocError> {
    over_image(
        alloc,
        "loops",
        "Stores a draft of the loop file of a program, with the bounds that are proved",
    )?
    .arg(required(alloc, "OUT", "The name of the loop file that is stored"))?
    .arg(inputs(
        alloc,
        "Up to 64 inputs: comments in the file tell how often loops turn on them",
    ))?
    .arg(input_bytes(alloc))?
    .arg(
        Arg::new(alloc, "trust-stores")
            .long("trust-stores")
            .action(ArgAction::SetTrue)
            .help(
                "Trusts stores of which nothing is known to change no word of a frame that the file names",
            ),
    )
}

fn explain_line<'a>(alloc: Global) -> Result<CommandLine<'a>, AllocError> {
    over_program(
        alloc,
        "explain",
        "Tells where the worst case of a program goes, by function and by loop",
    )
}

fn draw_run_line<'a>(alloc: Global) -> Result<CommandLine<'a>, AllocError> {
    let runs = Arg::new(alloc, "RUN")
        .required(true)
        .num_args(2..=RUN_NAMES)
        .action(ArgAction::Append)
        .value_names(&["IMAGE", "INPUT"])
        .help("The images that are run, up to 8, each with its input behind it");
    CommandLine::new(alloc, "run")
        .about("Stores a picture of runs on one axis of time, with their levels of speed")
        .arg(machine(alloc))?
        .arg(required(alloc, "OUT", "The name of the picture (SVG) that is stored"))?
        .arg(runs)
}

fn draw_plan_line<'a>(alloc: Global) -> Result<CommandLine<'a>, AllocError> {
    over_program(
        alloc,
        "plan",
        "Stores the graph of a program's code for Graphviz, with its worst walk",
    )?
    .arg(required(alloc, "OUT", "The name of the graph (DOT) that is stored"))
}

fn draw_line<'a>(alloc: Global) -> Result<CommandLine<'a>, AllocError> {
    CommandLine::new(alloc, "draw")
        .about("Stores a picture of runs, or the graph of a program's code")
        .subcommand_required(true)
        .subcommand(draw_run_line(alloc)?)?
        .subcommand(draw_plan_line(alloc)?)
}

fn jumps_line<'a>(alloc: Global) -> Result<CommandLine<'a>, AllocError> {
    over_image(
        alloc,
        "jumps",
        "Stores a draft of the jump file of a program: the tables of its switches",
    )?
    .arg(required(alloc, "OUT", "The name of the jump file that is stored"))
}

fn split_line<'a>(alloc: Global) -> Result<CommandLine<'a>, AllocError> {
    over_image(
        alloc,
        "split",
        "Stores the image of a program with one entry into each loop, by copies of code",
    )?
    .arg(required(alloc, "OUT", "The name of the image that is stored"))
}

fn all_line<'a>(alloc: Global) -> Result<CommandLine<'a>, AllocError> {
    over_image(
        alloc,
        "all",
        "Stores the image of a program fitted to inputs, with its jumps and its loops drafted",
    )?
    .arg(machine(alloc))?
    .arg(required(alloc, "OUT", "The name of the image that is stored"))?
    .arg(inputs(alloc, "Up to 64 inputs that the program is fitted to"))?
    .arg(input_bytes(alloc))?
    .arg(
        Arg::new(alloc, "no-versions")
            .long("no-versions")
            .action(ArgAction::SetTrue)
            .help(
                "Tries no images in which code is there twice, for few turns of loops and for many",
            ),
    )
}

fn command_line<'a>(alloc: Global) -> Result<CommandLine<'a>, AllocError> {
    CommandLine::new(alloc, "pace")
        .version("0.1.0")
        .about(
            "Fits the switches of speed of a program to inputs, drafts its files, and shows its worst case",
        )
        .no_binary_name(true)
        .subcommand_required(true)
        .subcommand(fit_line(alloc)?)?
        .subcommand(show_line(alloc)?)?
        .subcommand(loops_line(alloc)?)?
        .subcommand(explain_line(alloc)?)?
        .subcommand(draw_line(alloc)?)?
        .subcommand(jumps_line(alloc)?)?
        .subcommand(split_line(alloc)?)?
        .subcommand(all_line(alloc)?)
}

/// What the words match, or why they don't.
pub fn matches_of<'a>(alloc: Global, words: &'a [String]) -> Result<ArgMatches<'a>, Error> {
    command_line(alloc)?.try_get_matches_from(words)
}

/// The command that was matched.
pub fn command_of<'m>(matches: &'m ArgMatches<'_>) -> Option<Job<'m>> {
    let (name, given) = matches.subcommand()?;
    match name {
        "fit" => Some(fit_job(given)?),
        "show" => Some(Job::Show(program_of(given)?)),
        "loops" => Some(Job::Loops(loops_of(given)?)),
        "explain" => Some(Job::Explain(program_of(given)?)),
        "draw" => drawing_of(given),
        "jumps" => Some(Job::Jumps(jumps_of(given)?)),
        "split" => Some(Job::Split(split_of(given)?)),
        "all" => Some(Job::InOne(in_one_of(given)?)),
        _ => None,
    }
}

fn drawing_of<'m>(given: &'m ArgMatches<'_>) -> Option<Job<'m>> {
    let (name, given) = given.subcommand()?;
    match name {
        "run" => Some(Job::DrawRun(draw_run_of(given)?)),
        "plan" => Some(Job::DrawPlan(draw_plan_of(given)?)),
        _ => None,
    }
}

fn program_of<'m>(given: &'m ArgMatches<'_>) -> Option<Program<'m>> {
    Some(Program {
        image: given.get_str("IMAGE")?,
        machine: given.get_str("MACHINE")?,
        loops: given.get_str("LOOPS")?,
    })
}

fn inputs_of<'m>(given: &'m ArgMatches<'_>) -> Option<InputNames<'m>> {
    match given.get_strs("INPUT") {
        Some(names) => InputNames::of(names),
        None => InputNames::of(&[]),
    }
}

fn limit_of<'m>(given: &'m ArgMatches<'_>) -> Option<InputLimit> {
    InputLimit::of(given.get_one::<u32>("input-bytes"))
}

fn fit_of<'m>(given: &'m ArgMatches<'_>) -> Option<Fit<'m>> {
    Some(Fit {
        program: program_of(given)?,
        out: given.get_str("OUT")?,
        inputs: inputs_of(given)?,
    })
}

fn fit_job<'m>(given: &'m ArgMatches<'_>) -> Option<Job<'m>> {
    let fit = fit_of(given)?;
    if given.get_flag("versions") {
        Some(Job::FitVersions(fit))
    } else {
        Some(Job::Fit(fit))
    }
}

// Where an image has no input, nothing.
fn draw_run_of<'m>(given: &'m ArgMatches<'_>) -> Option<DrawRun<'m>> {
    let names = given.get_strs("RUN")?;
    if names.len() % 2 != 0 {
        return None;
    }
    Some(DrawRun {
        machine: given.get_str("MACHINE")?,
        out: given.get_str("OUT")?,
        names,
    })
}

fn in_one_of<'m>(given: &'m ArgMatches<'_>) -> Option<InOne<'m>> {
    Some(InOne {
        image: given.get_str("IMAGE")?,
        machine: given.get_str("MACHINE")?,
        out: given.get_str("OUT")?,
        versions: !given.get_flag("no-versions"),
        inputs: inputs_of(given)?,
        limit: limit_of(given)?,
    })
}

fn loops_of<'m>(given: &'m ArgMatches<'_>) -> Option<Loops<'m>> {
    Some(Loops {
        image: given.get_str("IMAGE")?,
        out: given.get_str("OUT")?,
        trusts: given.get_flag("trust-stores"),
        inputs: inputs_of(given)?,
        limit: limit_of(given)?,
    })
}

fn draw_plan_of<'m>(given: &'m ArgMatches<'_>) -> Option<DrawPlan<'m>> {
    Some(DrawPlan {
        program: program_of(given)?,
        out: given.get_str("OUT")?,
    })
}

fn jumps_of<'m>(given: &'m ArgMatches<'_>) -> Option<Jumps<'m>> {
    Some(Jumps {
        image: given.get_str("IMAGE")?,
        out: given.get_str("OUT")?,
    })
}

fn split_of<'m>(given: &'m ArgMatches<'_>) -> Option<Split<'m>> {
    Some(Split {
        image: given.get_str("IMAGE")?,
        out: given.get_str("OUT")?,
    })
}
