//! The functions that run, or wait for a call to come back, and the words of their stacks that are kept.

ghost use Rattle.std.specs.Prelude.{◌≡◌, ◌+◌, ◌*◌, ◌<◌, ◌^◌, ℕ, IfSome, None, Some, true};
ghost use Rattle.std.specs.List.{All};
ghost use Rattle.scale_base.specs.Arith.{plus};
ghost use Rattle.bound_laws.specs.Values.{ahead, opposite_of};
ghost use Rattle.stack_laws.specs.Stacks.{IsApart};
ghost use Rattle.value_checks.specs.Tables.{flag};
ghost use Rattle.stack_tables.specs.Tables.{IsStackClaim, claim_stacks, claim_values};
ghost use Rattle.tidy_runs.specs.Looking.{AreMissed};

use crate::writing::Written;
use stack_tables::{StackClaim, is_doubtful};

/// A function that runs, or waits for a call to come back, by its number, and what x2 had when it began.
#[derive(Clone, Copy)]
pub struct Activation {
    pub function: usize,
    pub stack: u32,
}

/// A doubtful step, by its address, that may have changed a word of the stack that is kept, by the number of its function, which runs or waits
/// for a call to come back, and its own.
#[derive(Clone, Copy)]
pub struct Broken {
    pub at: u32,
    pub function: usize,
    pub number: u32,
}

/// The number of an address' function: 0 where no node is there.
pub fn function_at(claim: &StackClaim<'_>, at: u32) -> usize
    requires { IsStackClaim claim.now }
    ensures { result ≡ (claim_values claim.now).function at }
{
    match claim.graph.find(at) {
        Some(k) => claim.graph.owner(k),
        None => 0,
    }
}

/// Whether what the instruction at an address stores is taken to miss all words of the stack that are kept.
pub fn is_doubtful_at(claim: &StackClaim<'_>, at: u32) -> bool
    requires { IsStackClaim claim.now }
    ensures { result ≡ (claim_stacks claim.now).doubtful at }
{
    match claim.graph.find(at) {
        Some(k) => is_doubtful(claim, k),
        None => false,
    }
}

// Whether none of so many bytes is one of word `number`, where x2 is so far above the first of them.
fn misses(below: u32, count: u32, number: u32) -> bool
    requires { number < 64 }
    ensures { result ≡ true → (from stack : ℕ) → from < 2 ^ 32 → stack < 2 ^ 32 → below ≡ ahead from stack →
        IsApart from count (plus stack (opposite_of (4 * (number + 1)))) }
{
    let distance = below.wrapping_sub(4 * (number + 1));
    0 < distance && count <= distance && distance <= u32::MAX - 3
}

// Whether the bytes end before the last of the 64 words, or begin behind the first one.
fn misses_all(below: u32, count: u32) -> bool
    ensures { result ≡ true → (number from stack : ℕ) → number < 64 → from < 2 ^ 32 → stack < 2 ^ 32 → below ≡ ahead from stack →
        IsApart from count (plus stack (opposite_of (4 * (number + 1)))) }
{
    256 < below && count <= below - 256
}

// A word among those kept that what is written may meet, where x2 had this when the function began.
fn met_in(kept: &[bool; 64], stack: u32, written: Written) -> Option<u32>
    ensures missed { result ≡ None → (k : ℕ) → flag kept.now k ≡ true →
        IsApart written.from written.count (plus stack (opposite_of (4 * (k + 1)))) }
    ensures met { IfSome result (λ k. flag kept.now k ≡ true) }
{
    let below = stack.wrapping_sub(written.from);
    if misses_all(below, written.count) {
        return None;
    }
    for number in 0..64 {
        if kept[number as usize] && !misses(below, written.count, number) {
            return Some(number);
        }
    }
    None
}

// A word among those kept for a function that runs or waits.
fn met_of(claim: &StackClaim<'_>, activation: &Activation, written: Written) -> Option<u32>
    ensures missed { result ≡ None → AreMissed (claim_stacks claim.now) written activation.now }
    ensures met { IfSome result (λ k. (claim_stacks claim.now).kept activation.now.function k ≡ true) }
{
    match claim.stack.kept.get(activation.function) {
        Some(kept) => met_in(kept, activation.stack, written),
        None => None,
    }
}

/// A word of a function that runs or waits, where the instruction at an address may meet one that is kept.
pub fn broken_by(
    claim: &StackClaim<'_>,
    at: u32,
    active: &[Activation],
    written: Written,
) -> Option<Broken>
    ensures missed { result ≡ None → All (AreMissed (claim_stacks claim.now) written) active.now }
    ensures broken { IfSome result (λ b. (b.at ≡ at) × ((claim_stacks claim.now).kept b.function b.number ≡ true)) }
{
    for activation in active {
        if let Some(number) = met_of(claim, activation, written) {
            return Some(Broken {
                at,
                function: activation.function,
                number,
            });
        }
    }
    None
}
