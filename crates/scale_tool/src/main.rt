//! The program `scale`: it chooses levels of speed for a program, so that it meets its deadline.
//!
//! Its tests are the command lines in `cases/`, on which `.ci/commands.py` runs it.
#![tactic(auto)]

mod command;
mod input_names;
mod making;
mod numbers;
mod program_files;
mod reply;
mod texts;
mod tool;

use host_files::RealHost;
use host_runs::{NoWords, words_of};
use progress_line::{ProgressLine, is_wanted};
use std::alloc::Global;
use std::env;
use std::process::ExitCode;
use tool::{run_tool, run_tool_with_progress};

fn run_words(rt: &HostRuntime, alloc: Global, words: &[String]) -> u8 {
    let mut host = RealHost::new(rt);
    if is_wanted(rt, &rt.stderr()) {
        let mut line = ProgressLine::new(rt, "scale");
        run_tool_with_progress(&mut host, alloc, words, &mut line)
    } else {
        run_tool(&mut host, alloc, words)
    }
}

// Where there are no words to look at, nothing is printed: 8 where they aren't text, 4 where memory ran out.
fn main(rt: HostRuntime) -> ExitCode {
    let alloc = rt.alloc();
    let status = match words_of(alloc, env::args(&rt)) {
        Ok(words) => run_words(&rt, alloc, &words),
        Err(NoWords::NotText) => 8,
        Err(NoWords::OutOfMemory) => 4,
    };
    ExitCode::from(status)
}
