//! The words that jump to a word or call it, as a chain for each word.

ghost use Rattle.std.specs.Prelude.{◌≡◌, ℕ, ◌+◌, ◌^◌, ◌<◌, length, IfOk};
ghost use Rattle.code_graph.specs.Flow.{AreStepChains, key_of};

use crate::reach::step::Step;
use scale_base::NoMemory;
use std::alloc::Global;

/// By word, the last of the words that jump to it or call it, and before each of those the next lower one.
#[derive(Drop)]
pub struct Chains {
    pub last: Vec<Option<usize>>,
    pub before: Vec<Option<usize>>,
}

// The word to which a word jumps, or which it calls.
fn key(step: Step) -> Option<usize>
    ensures { result ≡ key_of step }
{
    match step {
        Step::Return => None,
        Step::Stop => None,
        Step::On(jump, _) => jump,
        Step::Call(callee, _) => callee,
    }
}

// Puts a word in front of those that have its key.
fn link(steps: &[Step], chains: &mut Chains, s: usize)
    requires within { s < length steps.now }
    requires room { length steps.now < 2 ^ 32 }
    requires chain { AreStepChains steps.now s chains.old.last.items chains.old.before.items }
    ensures { AreStepChains steps.now (s + 1) chains.new.last.items chains.new.before.items }
{
    if let Some(k) = key(steps[s]) {
        if k < steps.len() {
            chains.before[s] = chains.last[k];
            chains.last[k] = Some(s);
        }
    }
}

/// The chains of all words.
pub fn find_chains(alloc: Global, steps: &[Step]) -> Result<Chains, NoMemory>
    requires { length steps.now < 2 ^ 32 }
    ensures { IfOk result (λ chains. AreStepChains steps.now (length steps.now) chains.last.items chains.before.items) }
{
    let mut chains = Chains {
        last: vec![in alloc; None; steps.len()]?,
        before: vec![in alloc; None; steps.len()]?,
    };
    for s in 0..steps.len() {
        link(steps, &mut chains, s);
    }
    Ok(chains)
}
