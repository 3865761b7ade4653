//! The candidates with stubs.

ghost use Rattle.std.specs.Prelude.{◌≡◌, ◌≤◌, ◌<◌, ◌^◌, ℕ, List, length, IfOk};
ghost use Rattle.scale_base.specs.Answer.{AnswersBy};
ghost use Rattle.marked_images.specs.Promise.{IsStoredSafely};
ghost use Rattle.scaler.specs.Prepared.{IsPrepared};
ghost use Rattle.gain_tuner.specs.Candidates.{IsCandidate};

use scale_base::{FILE_LIMIT, IMAGE_LIMIT, Stop, Summary};
use scaler::PreparedProgram;
use std::alloc::Global;

/// The least gain of the candidates 1 + 2 k and 2 + 2 k, in cycles of slack.
fn gain_of(k: u32) -> u32
    requires { k < 16 }
    ensures { result ≡ 4 ^ k }
{
    4_u32.pow(k)
}

/// The candidate of a number from 1 on, of the program of three files; and the program again. Two candidates have the least gain 4^k, for
/// each k below 16: the first of them counts the loops that are noted so, the second none.
pub fn candidate_of<'a>(
    alloc: Global,
    program: PreparedProgram<'a>,
    number: u32,
) -> (PreparedProgram<'a>, Result<(Vec<u8>, Summary), Stop>)
    requires prepared { (image : List ℕ) × (machine : List ℕ) × (loops : List ℕ) × (length image ≤ IMAGE_LIMIT) ×
        IsPrepared image machine loops program }
    requires from { 1 ≤ number }
    requires to { number < 33 }
    ensures same { result.0 ≡ program.entry }
    ensures given { (image machine loops : List ℕ) → IsPrepared image machine loops program.entry →
        AnswersBy (λ given. (given.0.items, given.1)) result.1 (IsCandidate image machine loops number) }
    ensures safe { (image machine loops : List ℕ) → length image ≤ IMAGE_LIMIT → length machine ≤ FILE_LIMIT →
        length loops ≤ FILE_LIMIT → IsPrepared image machine loops program.entry →
        IfOk result.1 (λ given. IsStoredSafely image machine loops given.0.items given.1) }
{
    let min_gain = gain_of((number - 1) / 2);
    let counters = number % 2 == 1;
    program.rewritten(alloc, min_gain, counters)
}
