//! The commands over a host.

ghost use Rattle.std.specs.Prelude.{◌≡◌, ◌≢◌, IsTrue};
ghost use Rattle.host_files.specs.HostState.{IsUntouched, Rose};
ghost use Rattle.host_runs.specs.Command.{IsAnswered, IsReadyFor, IsStatusOfAll, StopsWithin, StoresStand};
ghost use Rattle.host_runs.specs.Promise.{Promised};
ghost use Rattle.pace_tool.specs.Answer.{Makes};
ghost use Rattle.pace_tool.specs.Command.{has_one_status, may_answer, wants_of};
ghost use Rattle.pace_tool.specs.Promise.{Promise};
ghost use Rattle.pace_tool.specs.Views.{command_view};

use crate::command::Job;
use host_files::{Host, HostError};
use host_runs::run_command;
use run_progress::{Progress, Silent};
use std::alloc::Global;

/// `run_pace`, which tells how far it is. Its clauses are those of `run_pace`, and hold whatever is told.
#[tactic(auto, using(crate::proofs::Promises::answered_keep_promise, crate::proofs::Promises::stored_keep_promise, crate::proofs::OneStatus::status_of_all))]
pub fn run_pace_with_progress<H: Host, P: Progress>(
    host: &mut H,
    alloc: Global,
    command: &Job<'_>,
    progress: &mut P,
) -> u8
    // 0, and 1 where the files are refused, or `all` finds a loop without a bound; 3 and 4 where there is no answer.
    ensures statuses { IsTrue (may_answer result) }

    // Any status but 3 and 4: the command's whole answer over the files that are told.
    ensures answered { result ≢ 3 → result ≢ 4 → IsAnswered (wants_of (command_view command.now)) (Makes (command_view command.now)) result
        (H.state host.old) (H.state host.new) }

    // All answers that are right for the files have one status, the one that was given: 1 where the files are refused, and else 0. This isn't said of `loops` and `all`,
    // since which loops a draft has, and what it writes of them, is left open.
    ensures complete { IsTrue (has_one_status (command_view command.now)) → result ≢ 3 → result ≢ 4 →
        IsStatusOfAll (wants_of (command_view command.now)) (Makes (command_view command.now)) result (H.state host.old) }

    // What was done keeps the command's promise.
    ensures promise { result ≡ 0 → Promised (wants_of (command_view command.now)) (Promise (command_view command.now)) (H.state host.old)
        (H.state host.new) }

    // So do the stores of an answer that is no refusal, wherever all of them stand, as where only the print behind them failed.
    ensures promise_behind_a_fault { StoresStand (wants_of (command_view command.now)) (Makes (command_view command.now)) (H.state host.old) (H.state host.new) →
        Promised (wants_of (command_view command.now)) (Promise (command_view command.now)) (H.state host.old) (H.state host.new) }

    // 3 only where the host failed, and never over a steady host that has what it takes.
    ensures fault { result ≡ 3 → Rose (H.state host.old).faults (H.state host.new).faults }
    ensures no_fault { result ≢ 3 → (H.state host.new).faults ≡ (H.state host.old).faults }
    ensures fault_leaves { result ≡ 3 → StopsWithin (wants_of (command_view command.now)) (Makes (command_view command.now))
        (H.state host.old) (H.state host.new) }
    ensures ready { IsReadyFor (wants_of (command_view command.now)) (Makes (command_view command.now)) (H.state host.old) → result ≢ 3 }

    // 4: nothing has happened.
    ensures memory { result ≡ 4 → IsUntouched (H.state host.old) (H.state host.new) }
{
    match run_command(host, alloc, command, progress) {
        Ok(status) => status,
        Err(HostError::Failed) => 3,
        Err(HostError::OutOfMemory) => 4,
    }
}

/// Does what a command says, and answers the status.
///
/// How the clauses go together: with 0 the command was done, so `answered` says what was stored and printed, and `promise` what that means for whoever runs it. With 3,
/// `fault_leaves` says how far the answer came, and `promise_behind_a_fault` what the stores promise, where all of them stand nevertheless.
pub fn run_pace<H: Host>(host: &mut H, alloc: Global, command: &Job<'_>) -> u8
    // 0, and 1 where the files are refused, or `all` finds a loop without a bound; 3 and 4 where there is no answer.
    ensures statuses { IsTrue (may_answer result) }

    // Any status but 3 and 4: the command's whole answer over the files that are told.
    ensures answered { result ≢ 3 → result ≢ 4 → IsAnswered (wants_of (command_view command.now)) (Makes (command_view command.now)) result
        (H.state host.old) (H.state host.new) }

    // All answers that are right for the files have one status, the one that was given: 1 where the files are refused, and else 0. This isn't said of `loops` and `all`,
    // since which loops a draft has, and what it writes of them, is left open.
    ensures complete { IsTrue (has_one_status (command_view command.now)) → result ≢ 3 → result ≢ 4 →
        IsStatusOfAll (wants_of (command_view command.now)) (Makes (command_view command.now)) result (H.state host.old) }

    // What was done keeps the command's promise.
    ensures promise { result ≡ 0 → Promised (wants_of (command_view command.now)) (Promise (command_view command.now)) (H.state host.old)
        (H.state host.new) }

    // So do the stores of an answer that is no refusal, wherever all of them stand, as where only the print behind them failed.
    ensures promise_behind_a_fault { StoresStand (wants_of (command_view command.now)) (Makes (command_view command.now)) (H.state host.old) (H.state host.new) →
        Promised (wants_of (command_view command.now)) (Promise (command_view command.now)) (H.state host.old) (H.state host.new) }

    // 3 only where the host failed, and never over a steady host that has what it takes.
    ensures fault { result ≡ 3 → Rose (H.state host.old).faults (H.state host.new).faults }
    ensures no_fault { result ≢ 3 → (H.state host.new).faults ≡ (H.state host.old).faults }
    ensures fault_leaves { result ≡ 3 → StopsWithin (wants_of (command_view command.now)) (Makes (command_view command.now))
        (H.state host.old) (H.state host.new) }
    ensures ready { IsReadyFor (wants_of (command_view command.now)) (Makes (command_view command.now)) (H.state host.old) → result ≢ 3 }

    // 4: nothing has happened.
    ensures memory { result ≡ 4 → IsUntouched (H.state host.old) (H.state host.new) }
{
    run_pace_with_progress(host, alloc, command, &mut Silent)
}
