//! The refusals of single addresses: of reached addresses that aren't accepted, and of shared code.

ghost use Rattle.std.specs.Prelude.{◌≡◌, ◌≢◌, ◌↔◌, ◌<◌, ◌≤◌, ℕ, true, length, slice_get, Some, None, Ok};
ghost use Rattle.cost_theory.specs.declared.flow.Flow.TheVariants as flow;
ghost use Rattle.code_graph.specs.declared.reach.marks.Mark.TheVariants.{Unreached, Shared};
ghost use Rattle.scale_base.specs.Image.{image_of};
ghost use Rattle.code_text.specs.Text as texts;
ghost use Rattle.code_text.specs.Text.{text_of};
ghost use Rattle.flow_graph.specs.Refused.{cause_at, instr_cause};
ghost use Rattle.code_graph.specs.Finding.{reach_of, IsReachIn, IsFirstBelow, IsRefusedWord, IsLesser, IsLeastBad};

use crate::reach::{Mark, TextReach};
use cost_theory::Flow;
use elf_image::ImageView;
use rv_decode::decode;
use scale_base::{Instr, Refusal};

/// Why the instruction of a word that isn't accepted is refused; an illegal word has none.
fn instr_refusal(instr: Option<Instr>, at: u32) -> Refusal
    requires { instr_cause at instr ≢ None }
    ensures { instr_cause at instr ≡ Some result }
{
    match instr {
        Some(Instr::Jal { .. }) => Refusal::OddLink(at),
        Some(Instr::Jalr { .. }) => Refusal::IndirectJump(at),
        _ => Refusal::IllegalWord(at),
    }
}

/// Why an address is refused.
pub fn refusal_at(view: &ImageView<'_>, at: u32) -> Refusal
    requires image { image_of view.now.file ≡ Ok view.now }
    requires bad { texts.kind_at (text_of view.now) at ≡ flow.Refused }
    ensures { cause_at (text_of view.now) at ≡ Some result }
{
    if at % 4 != 0 {
        return Refusal::MisalignedTarget(at);
    }
    match view.word_at(at) {
        Some(word) => instr_refusal(decode(word), at),
        None => Refusal::OutsideText(at),
    }
}

/// Whether a word is reached and refused.
fn is_refused(mark: Mark, word: Flow) -> bool
    ensures { (result ≡ true) ↔ ((mark ≢ Unreached) × (word ≡ flow.Refused)) }
{
    match mark {
        Mark::Unreached => false,
        _ => matches!(word, Flow::Refused),
    }
}

/// The first word that is reached and refused.
fn first_refused(reach: &TextReach) -> Option<usize>
    requires { length reach.now.marks.items ≡ length reach.now.words.addresses }
    ensures { IsFirstBelow (length reach.now.words.addresses) (IsRefusedWord (reach_of reach.now)) result }
{
    for k in 0..reach.words.count() {
        if is_refused(reach.marks[k], reach.words.kind(k)) {
            return Some(k);
        }
    }
    None
}

/// The lesser of two addresses, the second of which may be missing.
fn lesser(at: u32, other: Option<u32>) -> u32
    ensures { IsLesser at other result }
{
    match other {
        Some(other) => at.min(other),
        None => at,
    }
}

/// The least reached address that is refused.
pub fn least_refused(view: &ImageView<'_>, reach: &TextReach) -> Option<u32>
    requires { IsReachIn (text_of view.now) (reach_of reach.now) }
    ensures { IsLeastBad (text_of view.now) result }
{
    match first_refused(reach) {
        Some(k) => Some(lesser(reach.words.address(k), reach.outside)),
        None => reach.outside,
    }
}

/// The first word that is reached in two functions.
pub fn first_shared(marks: &[Mark]) -> Option<usize>
    ensures { IsFirstBelow (length marks.now) (λ k. slice_get marks.now k ≡ Some Shared) result }
{
    marks.iter().position(|mark| matches!(mark, Mark::Shared))
}
