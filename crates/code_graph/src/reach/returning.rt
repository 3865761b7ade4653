//! From which words a return can come.

ghost use Rattle.std.specs.Prelude.{◌≡◌, ℕ, ◌+◌, ◌^◌, ◌<◌, ◌≤◌, Bool, true, false, length, OnOk, IfOk, slice_index, ◌↔◌};
ghost use Rattle.code_graph.specs.Flow.{reason, flag, flag_option, IsReturnPass, Waits, but, AreStepChains, but_keyed, but_parts, CanReturnAt};

use crate::reach::chains::{Chains, find_chains};
use crate::reach::step::Step;
use scale_base::NoMemory;
use std::alloc::Global;

pub fn is_flagged(flags: &[bool], word: Option<usize>) -> bool
    ensures { result ≡ flag_option flags.now word }
{
    match word {
        Some(k) => k < flags.len() && flags[k],
        None => false,
    }
}

// Whether a return can come from a word, by those from which one can.
fn has_reason(steps: &[Step], flags: &[bool], s: usize) -> bool
    requires within { s < length steps.now }
    requires room { length steps.now < 2 ^ 32 }
    ensures { result ≡ reason steps.now flags.now s }
{
    match steps[s] {
        Step::Return => true,
        Step::Stop => false,
        Step::On(jump, next) => is_flagged(flags, jump) || (next && is_flagged(flags, Some(s + 1))),
        Step::Call(callee, next) => is_flagged(flags, callee)
            && next
            && is_flagged(flags, Some(s + 1)),
    }
}

// The words from which a return can come, and those of them in the order in which they were found.
#[derive(Drop)]
struct Found {
    flags: Vec<bool>,
    queue: Vec<usize>,
}

// Finds a word, if it has a reason.
fn visit(steps: &[Step], found: &mut Found, s: usize) -> Result<(), NoMemory>
    requires within { s < length steps.now }
    requires room { length steps.now < 2 ^ 32 }
    requires pass { IsReturnPass steps.now found.old.flags.items found.old.queue.items }
    ensures pass { OnOk result (IsReturnPass steps.now found.new.flags.items found.new.queue.items) }
    ensures waits { OnOk result ((done : ℕ) (left : ℕ → Bool) → done ≤ length found.old.queue.items →
        Waits steps.now found.old.flags.items found.old.queue.items done left →
        Waits steps.now found.new.flags.items found.new.queue.items done (but left s)) }
    ensures front { OnOk result ((length found.old.queue.items ≤ length found.new.queue.items) ×
        ((p : ℕ) → p < length found.old.queue.items → slice_index found.new.queue.items p ≡ slice_index found.old.queue.items p)) }
{
    if has_reason(steps, &found.flags, s) && !found.flags[s] {
        found.flags[s] = true;
        found.queue.push(s)?;
    }
    Ok(())
}

// Visits the words that jump to word k or call it.
fn visit_sources(
    steps: &[Step],
    last: &[Option<usize>],
    before: &[Option<usize>],
    found: &mut Found,
    k: usize,
) -> Result<(), NoMemory>
    requires within { k < length steps.now }
    requires room { length steps.now < 2 ^ 32 }
    requires chain { AreStepChains steps.now (length steps.now) last.now before.now }
    requires pass { IsReturnPass steps.now found.old.flags.items found.old.queue.items }
    ensures pass { OnOk result (IsReturnPass steps.now found.new.flags.items found.new.queue.items) }
    ensures waits { OnOk result ((done : ℕ) (left : ℕ → Bool) → done ≤ length found.old.queue.items →
        Waits steps.now found.old.flags.items found.old.queue.items done left →
        Waits steps.now found.new.flags.items found.new.queue.items done (but_keyed steps.now k left)) }
    ensures front { OnOk result ((length found.old.queue.items ≤ length found.new.queue.items) ×
        ((p : ℕ) → p < length found.old.queue.items → slice_index found.new.queue.items p ≡ slice_index found.old.queue.items p)) }
{
    let mut next = last[k];
    while let Some(s) = next {
        visit(steps, found, s)?;
        next = before[s];
    }
    Ok(())
}

// Visits the words by which k is: those that jump to it or call it, and the one before it.
fn visit_parts(steps: &[Step], chains: &Chains, found: &mut Found, k: usize) -> Result<(), NoMemory>
    requires within { k < length steps.now }
    requires room { length steps.now < 2 ^ 32 }
    requires chain { AreStepChains steps.now (length steps.now) chains.now.last.items chains.now.before.items }
    requires pass { IsReturnPass steps.now found.old.flags.items found.old.queue.items }
    ensures pass { OnOk result (IsReturnPass steps.now found.new.flags.items found.new.queue.items) }
    ensures waits { OnOk result ((done : ℕ) (left : ℕ → Bool) → done ≤ length found.old.queue.items →
        Waits steps.now found.old.flags.items found.old.queue.items done left →
        Waits steps.now found.new.flags.items found.new.queue.items done (but_parts steps.now k left)) }
    ensures longer { OnOk result (length found.old.queue.items ≤ length found.new.queue.items) }
{
    visit_sources(steps, &chains.last, &chains.before, found, k)?;
    if k > 0 {
        visit(steps, found, k - 1)?;
    }
    Ok(())
}

// Finds each word that has a reason by itself.
fn seed(steps: &[Step], found: &mut Found) -> Result<(), NoMemory>
    requires room { length steps.now < 2 ^ 32 }
    requires pass { IsReturnPass steps.now found.old.flags.items found.old.queue.items }
    ensures pass { OnOk result (IsReturnPass steps.now found.new.flags.items found.new.queue.items) }
    ensures waits { OnOk result (Waits steps.now found.new.flags.items found.new.queue.items 0 (λ x. false)) }
{
    for s in 0..steps.len() {
        visit(steps, found, s)?;
    }
    Ok(())
}

/// The words from which a return can come, within one function: by word, whether a way of jumps, next words and calls
/// that return leads from it to a return.
pub fn find_returning(alloc: Global, steps: &[Step]) -> Result<Vec<bool>, NoMemory>
    requires { length steps.now < 2 ^ 32 }
    ensures size { IfOk result (λ flags. length flags.items ≡ length steps.now) }
    ensures flags { IfOk result (λ flags. (s : ℕ) → (flag flags.items s ≡ true) ↔ CanReturnAt steps.now s) }
{
    let chains = find_chains(alloc, steps)?;
    let flags = vec![in alloc; false; steps.len()]?;
    let mut found = Found {
        flags,
        queue: Vec::new(alloc),
    };
    seed(steps, &mut found)?;
    let mut done = 0;
    while done < found.queue.len() {
        let k = found.queue[done];
        visit_parts(steps, &chains, &mut found, k)?;
        done += 1;
    }
    Ok(found.flags)
}
