//! Where each word of a text goes on, by the numbers of words.

ghost use Rattle.std.specs.Prelude.{ℕ, ◌<◌, IfOk, length};
ghost use Rattle.code_graph.specs.Reach.{WordStandsAt};
ghost use Rattle.code_graph.specs.Steps.{AreLow, HasNextWord, IsStepAt, AreSteps};

use crate::reach::step::Step;
use code_text::TextWords;
use cost_theory::Flow;
use scale_base::NoMemory;
use std::alloc::Global;

/// Whether the word behind a word stands right behind it, and not behind a gap.
fn has_next(words: &TextWords, k: usize) -> bool
    requires within { k < length words.now.addresses }
    requires low { AreLow words.now.addresses }
    ensures { (v : ℕ) → WordStandsAt words.now k v → HasNextWord words.now k v result }
{
    words.count() > k + 1 && words.address(k + 1) == words.address(k) + 4
}

/// Where a word goes on.
fn step_of(words: &TextWords, k: usize) -> Step
    requires within { k < length words.now.addresses }
    requires low { AreLow words.now.addresses }
    ensures { IsStepAt words.now k result }
{
    match words.kind(k) {
        Flow::Branch(to) => Step::On(words.find(to), has_next(words, k)),
        Flow::Jump(to) => Step::On(words.find(to), false),
        Flow::Call(to) => Step::Call(words.find(to), has_next(words, k)),
        Flow::Return => Step::Return,
        Flow::MayExit | Flow::Next => Step::On(None, has_next(words, k)),
        Flow::Exit | Flow::Breakpoint | Flow::Refused => Step::Stop,
    }
}

/// Where each word goes on.
pub fn steps_of(alloc: Global, words: &TextWords) -> Result<Vec<Step>, NoMemory>
    requires { AreLow words.now.addresses }
    ensures { IfOk result (λ steps. AreSteps words.now steps.items) }
{
    let mut steps = Vec::new(alloc);
    for k in 0..words.count() {
        steps.push(step_of(words, k))?;
    }
    Ok(steps)
}
