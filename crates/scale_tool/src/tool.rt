//! The commands over a host.

ghost use Rattle.std.specs.Prelude.{◌≡◌, ◌≢◌, Some, None, IsTrue};
ghost use Rattle.host_files.specs.HostState.{IsUntouched, Rose};
ghost use Rattle.host_files.specs.Host.{count_if, is_failed};
ghost use Rattle.scale_tool.specs.Command.{Help, command_of, texts, may_answer};
ghost use Rattle.scale_tool.specs.Passing.{Passes};
ghost use Rattle.scale_tool.specs.Promise.{Promised};
ghost use Rattle.scale_tool.specs.Tool.{Ends, IsAnswered, IsReadyFor, IsStatusOfAll, MayEnd, StopsWithin, StoresStand};

use crate::command::{Command, parse};
use crate::texts;
use check_laws::rewritten_images_pass;
use host_files::{Host, HostError};
use host_runs::{deliver, run_command};
use run_progress::{Progress, Silent};
use std::alloc::Global;

/// Tells how the commands are called.
#[tactic(auto, using(crate::proofs::Ready::room_for_help))]
fn print_help<H: Host>(host: &mut H) -> Result<u8, HostError>
    ensures may { MayEnd (Some Help) result }
    ensures ends { Ends (Some Help) result (H.state host.old) (H.state host.new) }
    ensures faults { (H.state host.new).faults ≡ count_if (is_failed result) (H.state host.old).faults }
{
    match deliver(host, &[], texts::help().as_bytes()) {
        Ok(()) => Ok(0),
        Err(error) => Err(error),
    }
}

/// Says that words are no command.
#[tactic(auto, using(crate::proofs::Ready::room_for_words))]
fn refuse_words<H: Host>(host: &mut H) -> Result<u8, HostError>
    ensures may { MayEnd None result }
    ensures ends { Ends None result (H.state host.old) (H.state host.new) }
    ensures faults { (H.state host.new).faults ≡ count_if (is_failed result) (H.state host.old).faults }
{
    match deliver(host, &[], texts::bad_command().as_bytes()) {
        Ok(()) => Ok(2),
        Err(error) => Err(error),
    }
}

fn run<H: Host, P: Progress>(
    host: &mut H,
    alloc: Global,
    words: &[String],
    progress: &mut P,
) -> Result<u8, HostError>
    ensures may { MayEnd (command_of (texts words.now)) result }
    ensures ends { Ends (command_of (texts words.now)) result (H.state host.old) (H.state host.new) }
    ensures faults { (H.state host.new).faults ≡ count_if (is_failed result) (H.state host.old).faults }
{
    match parse(words) {
        Some(Command::Help) => print_help(host),
        Some(Command::Work(work)) => run_command(host, alloc, &work, progress),
        None => refuse_words(host),
    }
}

/// `run_tool`, which tells how far it is. Its clauses are those of `run_tool`, and hold whatever is told.
#[tactic(auto, using(crate::proofs::OneStatus::status_of_all, crate::proofs::Passing::answered_passes))]
pub fn run_tool_with_progress<H: Host, P: Progress>(
    host: &mut H,
    alloc: Global,
    words: &[String],
    progress: &mut P,
) -> u8
    // 2 exactly where the words are no command, and 4 for a command that needs memory.
    ensures statuses { IsTrue (may_answer (command_of (texts words.now)) result) }

    // Any status but 3 and 4: the command's whole answer over the files that are told.
    ensures answered { result ≢ 3 → result ≢ 4 → IsAnswered (command_of (texts words.now)) result (H.state host.old) (H.state host.new) }

    // All answers that are right for the files have one status, the one that was given: 1 where the files are refused, and else another one.
    ensures complete { result ≢ 3 → result ≢ 4 → IsStatusOfAll (command_of (texts words.now)) result (H.state host.old) }

    // What was done keeps the command's promise: with 0, with 5 and 6 of `make` too, and with 7.
    ensures promise { result ≢ 1 → result ≢ 3 → result ≢ 4 → Promised (command_of (texts words.now)) (H.state host.old) (H.state host.new) }

    // So do the stores of an answer that is no refusal, wherever all of them stand, as where only the print behind them failed.
    ensures promise_behind_a_fault { StoresStand (command_of (texts words.now)) (H.state host.old) (H.state host.new) →
        Promised (command_of (texts words.now)) (H.state host.old) (H.state host.new) }

    // `check` of what `rewrite` stores of the same files: yes, with the numbers that `rewrite` printed.
    ensures passes { result ≢ 3 → result ≢ 4 → Passes (command_of (texts words.now)) result (H.state host.old) (H.state host.new) }

    // 3 only where the host failed, and never over a steady host that has what it takes.
    ensures fault { result ≡ 3 → Rose (H.state host.old).faults (H.state host.new).faults }
    ensures no_fault { result ≢ 3 → (H.state host.new).faults ≡ (H.state host.old).faults }
    ensures fault_leaves { result ≡ 3 → StopsWithin (command_of (texts words.now)) (H.state host.old) (H.state host.new) }
    ensures ready { IsReadyFor (command_of (texts words.now)) (H.state host.old) → result ≢ 3 }

    // 4: nothing has happened.
    ensures memory { result ≡ 4 → IsUntouched (H.state host.old) (H.state host.new) }
{
    // The law behind `passes`.
    rewritten_images_pass();
    match run(host, alloc, words, progress) {
        Ok(status) => status,
        Err(HostError::Failed) => 3,
        Err(HostError::OutOfMemory) => 4,
    }
}

/// Does what the words of a command line say, and answers the status.
///
/// How the clauses go together: with 0, 5, 6 and 7 the command was done, so `answered` says what was stored and printed, and `promise` what that means for whoever
/// runs it. With 3, `fault_leaves` says how far the answer came, and `promise_behind_a_fault` what the stores promise, where all of them stand nevertheless. That the tool is
/// complete is `complete` with `answered`, `statuses` and `fault`: where nothing refuses the files the status is no 1, so the command was done, unless the host failed
/// or memory ran out.
pub fn run_tool<H: Host>(host: &mut H, alloc: Global, words: &[String]) -> u8
    // 2 exactly where the words are no command, and 4 for a command that needs memory.
    ensures statuses { IsTrue (may_answer (command_of (texts words.now)) result) }

    // Any status but 3 and 4: the command's whole answer over the files that are told.
    ensures answered { result ≢ 3 → result ≢ 4 → IsAnswered (command_of (texts words.now)) result (H.state host.old) (H.state host.new) }

    // All answers that are right for the files have one status, the one that was given: 1 where the files are refused, and else another one.
    ensures complete { result ≢ 3 → result ≢ 4 → IsStatusOfAll (command_of (texts words.now)) result (H.state host.old) }

    // What was done keeps the command's promise: with 0, with 5 and 6 of `make` too, and with 7.
    ensures promise { result ≢ 1 → result ≢ 3 → result ≢ 4 → Promised (command_of (texts words.now)) (H.state host.old) (H.state host.new) }

    // So do the stores of an answer that is no refusal, wherever all of them stand, as where only the print behind them failed.
    ensures promise_behind_a_fault { StoresStand (command_of (texts words.now)) (H.state host.old) (H.state host.new) →
        Promised (command_of (texts words.now)) (H.state host.old) (H.state host.new) }

    // `check` of what `rewrite` stores of the same files: yes, with the numbers that `rewrite` printed.
    ensures passes { result ≢ 3 → result ≢ 4 → Passes (command_of (texts words.now)) result (H.state host.old) (H.state host.new) }

    // 3 only where the host failed, and never over a steady host that has what it takes.
    ensures fault { result ≡ 3 → Rose (H.state host.old).faults (H.state host.new).faults }
    ensures no_fault { result ≢ 3 → (H.state host.new).faults ≡ (H.state host.old).faults }
    ensures fault_leaves { result ≡ 3 → StopsWithin (command_of (texts words.now)) (H.state host.old) (H.state host.new) }
    ensures ready { IsReadyFor (command_of (texts words.now)) (H.state host.old) → result ≢ 3 }

    // 4: nothing has happened.
    ensures memory { result ≡ 4 → IsUntouched (H.state host.old) (H.state host.new) }
{
    run_tool_with_progress(host, alloc, words, &mut Silent)
}
