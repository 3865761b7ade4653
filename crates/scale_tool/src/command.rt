//! The words of a command line.

ghost use Rattle.std.specs.Prelude.{◌≡◌, ◌++◌, ◌∷◌, IfOk, OnOk, option_map};
ghost use Rattle.host_runs.specs.Views.{want_views};
ghost use Rattle.scale_tool.specs.Command.{command_of, help_of, hold_of, rewrite_of, report_words, simulate_of, make_of, lower_of, check_of, survey_of, tune_of, input_wants, loop_wants, texts, wants_of};
ghost use Rattle.scale_tool.specs.Views.{command_view, work_view};

use crate::input_names::InputNames;
use crate::numbers::{Size, program_number, program_size};
use host_runs::Want;
use scale_base::{FILE_LIMIT, IMAGE_LIMIT, STORED_LIMIT};
use std::alloc::{AllocError, Global};

/// A command.
#[derive(Clone, Copy)]
pub enum Command<'a> {
    /// Tells how the commands are called.
    Help,
    /// Makes files, a text or both.
    Work(Work<'a>),
}

/// What is made of files, with their names, or of a number with a size.
#[derive(Clone, Copy)]
pub enum Work<'a> {
    /// Keeps the whole program at the slowest level that is safe.
    Hold {
        image: &'a str,
        machine: &'a str,
        loops: &'a str,
        out: &'a str,
    },
    /// Lowers the program's level where what is left of its worst case allows it.
    Rewrite {
        image: &'a str,
        machine: &'a str,
        loops: &'a str,
        out: &'a str,
    },
    /// Tells all that a rewriting finds.
    Report {
        image: &'a str,
        machine: &'a str,
        loops: &'a str,
    },
    /// Runs the program, and tells what the run costs and whether it keeps the notes of its loops, if any are given.
    Simulate {
        image: &'a str,
        machine: &'a str,
        input: &'a str,
        out: &'a str,
        loops: Option<&'a str>,
    },
    /// Makes a program, rewrites it, and runs both.
    Make {
        number: u64,
        size: Size,
        prefix: &'a str,
    },
    /// Puts near jumps in place of far ones, and trees of comparisons in place of the listed jumps through registers.
    Lower {
        image: &'a str,
        jumps: &'a str,
        out: &'a str,
    },
    /// Tells whether an image of other make is a safe rewriting of the program.
    Check {
        image: &'a str,
        foreign: &'a str,
        machine: &'a str,
        loops: &'a str,
    },
    /// Runs the program and its scaled image over inputs, and tells what the runs cost and how often the loops turn.
    Survey {
        image: &'a str,
        scaled: &'a str,
        machine: &'a str,
        loops: &'a str,
        inputs: InputNames<'a>,
    },
    /// Stores the rewriting whose runs over inputs take the least energy.
    Tune {
        image: &'a str,
        machine: &'a str,
        loops: &'a str,
        out: &'a str,
        inputs: InputNames<'a>,
    },
}

/// The command that these words are.
pub fn parse(words: &[String]) -> Option<Command<'_>>
    ensures { option_map command_view result ≡ command_of (texts words.now) }
{
    let (word, words) = words.split_first()?;
    match word.as_str() {
        "help" => parse_help(words),
        "hold" => parse_hold(words),
        "rewrite" => parse_rewrite(words),
        "report" => parse_report(words),
        "simulate" => parse_simulate(words),
        "make" => parse_make(words),
        "lower" => parse_lower(words),
        "check" => parse_check(words),
        "survey" => parse_survey(words),
        "tune" => parse_tune(words),
        _ => None,
    }
}

fn parse_help(words: &[String]) -> Option<Command<'_>>
    ensures { option_map command_view result ≡ help_of (texts words.now) }
{
    match words {
        [] => Some(Command::Help),
        _ => None,
    }
}

fn parse_hold(words: &[String]) -> Option<Command<'_>>
    ensures { option_map command_view result ≡ hold_of (texts words.now) }
{
    match words {
        [image, machine, loops, out] => Some(Command::Work(Work::Hold {
            image: image.as_str(),
            machine: machine.as_str(),
            loops: loops.as_str(),
            out: out.as_str(),
        })),
        _ => None,
    }
}

fn parse_rewrite(words: &[String]) -> Option<Command<'_>>
    ensures { option_map command_view result ≡ rewrite_of (texts words.now) }
{
    match words {
        [image, machine, loops, out] => Some(Command::Work(Work::Rewrite {
            image: image.as_str(),
            machine: machine.as_str(),
            loops: loops.as_str(),
            out: out.as_str(),
        })),
        _ => None,
    }
}

fn parse_report(words: &[String]) -> Option<Command<'_>>
    ensures { option_map command_view result ≡ report_words (texts words.now) }
{
    match words {
        [image, machine, loops] => Some(Command::Work(Work::Report {
            image: image.as_str(),
            machine: machine.as_str(),
            loops: loops.as_str(),
        })),
        _ => None,
    }
}

fn parse_simulate(words: &[String]) -> Option<Command<'_>>
    ensures { option_map command_view result ≡ simulate_of (texts words.now) }
{
    match words {
        [image, machine, input, out] => Some(Command::Work(Work::Simulate {
            image: image.as_str(),
            machine: machine.as_str(),
            input: input.as_str(),
            out: out.as_str(),
            loops: None,
        })),
        [image, machine, input, out, loops] => Some(Command::Work(Work::Simulate {
            image: image.as_str(),
            machine: machine.as_str(),
            input: input.as_str(),
            out: out.as_str(),
            loops: Some(loops.as_str()),
        })),
        _ => None,
    }
}

fn parse_make(words: &[String]) -> Option<Command<'_>>
    ensures { option_map command_view result ≡ make_of (texts words.now) }
{
    match words {
        [number, size, prefix] => Some(Command::Work(Work::Make {
            number: program_number(number.as_str())?,
            size: program_size(size.as_str())?,
            prefix: prefix.as_str(),
        })),
        _ => None,
    }
}

fn parse_lower(words: &[String]) -> Option<Command<'_>>
    ensures { option_map command_view result ≡ lower_of (texts words.now) }
{
    match words {
        [image, jumps, out] => Some(Command::Work(Work::Lower {
            image: image.as_str(),
            jumps: jumps.as_str(),
            out: out.as_str(),
        })),
        _ => None,
    }
}

fn parse_check(words: &[String]) -> Option<Command<'_>>
    ensures { option_map command_view result ≡ check_of (texts words.now) }
{
    match words {
        [image, foreign, machine, loops] => Some(Command::Work(Work::Check {
            image: image.as_str(),
            foreign: foreign.as_str(),
            machine: machine.as_str(),
            loops: loops.as_str(),
        })),
        _ => None,
    }
}

fn parse_survey(words: &[String]) -> Option<Command<'_>>
    ensures { option_map command_view result ≡ survey_of (texts words.now) }
{
    match words {
        [image, scaled, machine, loops, inputs @ ..] => Some(Command::Work(Work::Survey {
            image: image.as_str(),
            scaled: scaled.as_str(),
            machine: machine.as_str(),
            loops: loops.as_str(),
            inputs: InputNames::of(inputs)?,
        })),
        _ => None,
    }
}

fn parse_tune(words: &[String]) -> Option<Command<'_>>
    ensures { option_map command_view result ≡ tune_of (texts words.now) }
{
    match words {
        [image, machine, loops, out, inputs @ ..] => Some(Command::Work(Work::Tune {
            image: image.as_str(),
            machine: machine.as_str(),
            loops: loops.as_str(),
            out: out.as_str(),
            inputs: InputNames::of(inputs)?,
        })),
        _ => None,
    }
}

/// The files that are loaded, in order.
pub fn wants<'a>(alloc: Global, work: &Work<'a>) -> Result<Vec<Want<'a>>, AllocError>
    ensures { IfOk result (λ wants. want_views wants.items ≡ wants_of (work_view work.now)) }
{
    match *work {
        Work::Hold {
            image,
            machine,
            loops,
            ..
        }
        | Work::Rewrite {
            image,
            machine,
            loops,
            ..
        }
        | Work::Report {
            image,
            machine,
            loops,
        } => program_wants(alloc, image, machine, loops, &[]),
        Work::Simulate {
            image,
            machine,
            input,
            loops,
            ..
        } => run_wants(alloc, image, machine, input, loops),
        Work::Make { .. } => Ok(Vec::new(alloc)),
        Work::Lower { image, jumps, .. } => {
            Ok(vec![in alloc; want(image, IMAGE_LIMIT), want(jumps, FILE_LIMIT)]?)
        }
        Work::Check {
            image,
            foreign,
            machine,
            loops,
        } => {
            let names = PairNames {
                image,
                other: foreign,
                machine,
                loops,
            };
            pair_wants(alloc, &names, &[])
        }
        Work::Survey {
            image,
            scaled,
            machine,
            loops,
            inputs,
        } => {
            let names = PairNames {
                image,
                other: scaled,
                machine,
                loops,
            };
            pair_wants(alloc, &names, inputs.names)
        }
        Work::Tune {
            image,
            machine,
            loops,
            inputs,
            ..
        } => program_wants(alloc, image, machine, loops, inputs.names),
    }
}

// A program with its machine file and its loop file, and inputs.
fn program_wants<'a>(
    alloc: Global,
    image: &'a str,
    machine: &'a str,
    loops: &'a str,
    inputs: &'a [String],
) -> Result<Vec<Want<'a>>, AllocError>
    ensures { IfOk result
        (λ wants. want_views wants.items ≡ (image.now, IMAGE_LIMIT) ∷ (machine.now, FILE_LIMIT) ∷ (loops.now, FILE_LIMIT) ∷
        input_wants (texts inputs.now)) }
{
    let mut wants = vec![in alloc;
        want(image, IMAGE_LIMIT),
        want(machine, FILE_LIMIT),
        want(loops, FILE_LIMIT),
    ]?;
    push_inputs(&mut wants, inputs)?;
    Ok(wants)
}

// The names of a program's files, with another image behind the first.
#[derive(Clone, Copy)]
struct PairNames<'a> {
    image: &'a str,
    other: &'a str,
    machine: &'a str,
    loops: &'a str,
}

// These files, and inputs.
fn pair_wants<'a>(
    alloc: Global,
    names: &PairNames<'a>,
    inputs: &'a [String],
) -> Result<Vec<Want<'a>>, AllocError>
    ensures { IfOk result (λ wants. want_views wants.items ≡ (names.now.image.now, IMAGE_LIMIT) ∷ (names.now.other.now, STORED_LIMIT) ∷
        (names.now.machine.now, FILE_LIMIT) ∷ (names.now.loops.now, FILE_LIMIT) ∷ input_wants (texts inputs.now)) }
{
    let mut wants = vec![in alloc;
        want(names.image, IMAGE_LIMIT),
        want(names.other, STORED_LIMIT),
        want(names.machine, FILE_LIMIT),
        want(names.loops, FILE_LIMIT),
    ]?;
    push_inputs(&mut wants, inputs)?;
    Ok(wants)
}

// A program with its machine file and an input, and its loop file, if one is given.
fn run_wants<'a>(
    alloc: Global,
    image: &'a str,
    machine: &'a str,
    input: &'a str,
    loops: Option<&'a str>,
) -> Result<Vec<Want<'a>>, AllocError>
    ensures { IfOk result
        (λ wants. want_views wants.items ≡ (image.now, STORED_LIMIT) ∷ (machine.now, FILE_LIMIT) ∷ (input.now, FILE_LIMIT) ∷
        loop_wants (option_map (λ l. l.now) loops.entry)) }
{
    let mut wants = vec![in alloc;
        want(image, STORED_LIMIT),
        want(machine, FILE_LIMIT),
        want(input, FILE_LIMIT),
    ]?;
    if let Some(loops) = loops {
        wants.push(want(loops, FILE_LIMIT))?;
    }
    Ok(wants)
}

fn push_inputs<'a>(wants: &mut Vec<Want<'a>>, inputs: &'a [String]) -> Result<(), AllocError>
    ensures { OnOk result (want_views wants.new.items ≡ want_views wants.old.items ++ input_wants (texts inputs.now)) }
{
    for name in inputs {
        wants.push(want(name.as_str(), FILE_LIMIT))?;
    }
    Ok(())
}

fn want(name: &str, limit: usize) -> Want<'_>
    ensures { (result.name.now ≡ name.now) × (result.limit ≡ limit) }
{
    Want {
        name,
        limit: limit as u64,
    }
}
