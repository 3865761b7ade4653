//! The program `pace`: it fits the switches of speed of a program to inputs, so that it takes less energy and still meets its deadline, and tells what keeps its
//! speed from being lowered and where its worst case goes. It drafts loop files and jump files, too.
//!
//! What the words of its command line mean is `clap`'s to say, and is tested. What is proved begins at the command that they are.
#![tactic(auto)]

mod command;
mod draw_plan;
mod draw_run;
mod explain;
mod fit;
mod in_one;
mod input_names;
mod jumps;
mod loops;
mod making;
mod naming_host;
mod pace;
mod plain;
mod replies;
mod show;
mod split;
mod texts;
mod versions;
mod words;

use clap::error::ErrorKind;
use clap::{ArgMatches, Error};
use command::{Job, loaded_name, stored_name};
use host_files::RealHost;
use host_runs::{NoWords, words_of};
use naming_host::{Fault, NamingHost};
use pace::{run_pace, run_pace_with_progress};
use progress_line::{ProgressLine, is_wanted};
use std::alloc::Global;
use std::process::ExitCode;
use std::{env, io};
use words::{command_of, matches_of};

// Help and the version go to standard output, usage errors to standard error, and nothing where memory ran out.
fn print_error(rt: &HostRuntime, error: &Error) -> u8 {
    if matches!(error.kind(), ErrorKind::OutOfMemory) {
        return 4;
    }
    match error.print(rt) {
        Ok(()) => { if error.use_stderr() { 2 } else { 0 } }
        Err(_) => 3,
    }
}

// Tells on standard error which file can't be read or stored.
fn print_name(rt: &HostRuntime, name: Option<&str>, what: &str) -> io::Result<()> {
    match name {
        Some(name) => eprintln!(rt; "pace: {name} can't be {what}"),
        None => Ok(()),
    }
}

fn print_fault(rt: &HostRuntime, command: &Job<'_>, fault: Fault) -> io::Result<()> {
    match fault {
        Fault::Load(number) => print_name(rt, loaded_name(command, number), "read"),
        Fault::Store => print_name(rt, stored_name(command), "stored"),
        Fault::Print => eprintln!(rt; "pace: standard output can't be written"),
    }
}

// Tells on standard error why there is no answer. Where that can't be printed, either, the status alone tells it.
fn print_why(rt: &HostRuntime, command: &Job<'_>, status: u8, fault: Option<Fault>) {
    let _printed = match (status, fault) {
        (3, Some(fault)) => print_fault(rt, command, fault),
        (4, _) => eprintln!(rt; "pace: memory ran out"),
        _ => Ok(()),
    };
}

fn run_command(rt: &HostRuntime, alloc: Global, command: &Job<'_>) -> u8 {
    let mut host = NamingHost::new(RealHost::new(rt));
    let status = if is_wanted(rt, &rt.stderr()) {
        let mut line = ProgressLine::new(rt, "pace");
        run_pace_with_progress(&mut host, alloc, command, &mut line)
    } else {
        run_pace(&mut host, alloc, command)
    };
    print_why(rt, command, status, host.fault);
    status
}

// Tells on standard error what clap has no word for. Where that can't be printed, the status alone tells it.
fn print_pairs(rt: &HostRuntime) {
    let _printed = eprintln!(rt; "pace: each image that is drawn has an input behind it");
}

fn run_matched(rt: &HostRuntime, alloc: Global, matches: &ArgMatches<'_>) -> u8 {
    match command_of(matches) {
        Some(command) => run_command(rt, alloc, &command),
        None => {
            print_pairs(rt);
            2
        }
    }
}

fn run_words(rt: &HostRuntime, alloc: Global, words: &[String]) -> u8 {
    match matches_of(alloc, words) {
        Ok(matches) => run_matched(rt, alloc, &matches),
        Err(error) => print_error(rt, &error),
    }
}

// Where there are no words to look at, nothing is printed: 8 where they aren't text, 4 where memory ran out.
fn main(rt: HostRuntime) -> ExitCode {
    let alloc = rt.alloc();
    let status = match words_of(alloc, env::args(&rt)) {
        Ok(words) => run_words(&rt, alloc, &words),
        Err(NoWords::NotText) => 8,
        Err(NoWords::OutOfMemory) => 4,
    };
    ExitCode::from(status)
}
