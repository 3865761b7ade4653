//! The number that x17 is known to hold at an address.

ghost use Rattle.std.specs.Prelude.{◌≡◌, ℕ, ◌%◌, ◌+◌, ◌==◌, ◌||◌, not, nat_le, Some, None, true};
ghost use Rattle.std.specs.List.{list_any};
ghost use Rattle.scale_base.specs.Image.{is_in};
ghost use Rattle.code_text.specs.Text as texts;
ghost use Rattle.code_text.specs.Walk.{IsWalked, AreTargetsOf, Rise};

use crate::instructions::{instr_at, leaves_17, puts_17};
use elf_image::ImageView;
use scale_base::{Instr, Range};

/// Whether the address is among the targets, which ascend.
fn is_among(targets: &[u32], at: u32) -> bool
    requires { Rise targets.now }
    ensures { result ≡ list_any (λ u. u == at) targets.now }
{
    targets.binary_search(&at).is_ok()
}

/// Whether a jump may come to the address, or no word stands right before it in the range.
fn is_shut(targets: &[u32], range: Range, at: u32) -> bool
    requires rising { Rise targets.now }
    requires inside { is_in at range ≡ true }
    ensures { result ≡ (list_any (λ u. u == at) targets.now || not (nat_le (range.from + 4) at)) }
{
    is_among(targets, at) || at - range.from < 4
}

/// What is known behind an instruction, from what is known before it.
fn behind(instr: &Instr, before: Option<u32>) -> Option<u32>
    ensures { result ≡ texts.known_behind (Some instr.now) before }
{
    match puts_17(instr) {
        Some(number) => Some(number),
        None => { if leaves_17(instr) { before } else { None } }
    }
}

/// The number that x17 is known to hold at an address of a range, from at most so many words before it.
pub fn known_within(
    view: &ImageView<'_>,
    targets: &[u32],
    range: Range,
    at: u32,
    words: u32,
) -> Option<u32>
    requires aligned { at % 4 ≡ 0 }
    requires inside { is_in at range ≡ true }
    requires range { IsWalked view.now range }
    requires targets { AreTargetsOf (texts.text_of view.now) targets.now }
    requires rising { Rise targets.now }
    ensures { result ≡ texts.known_within (texts.text_of view.now) words at }
{
    if words == 0 {
        return None;
    }
    if is_shut(targets, range, at) {
        return None;
    }
    match instr_at(view, at - 4) {
        Some(instr) => behind(
            &instr,
            known_within(view, targets, range, at - 4, words - 1),
        ),
        None => None,
    }
}
