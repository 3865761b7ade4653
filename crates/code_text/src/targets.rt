//! Where the jumps of a text go.

ghost use Rattle.std.specs.Prelude.{◌≡◌, ℕ, ◌==◌, ◌||◌, IfOk, Ok, true};
ghost use Rattle.std.specs.List.{list_any};
ghost use Rattle.scale_base.specs.Image.{image_of, is_word_address};
ghost use Rattle.code_text.specs.Text as texts;
ghost use Rattle.code_text.specs.Walk.{IsWalked, AreTargetsOf, Rise};

use crate::instructions::{instr_at, jump_of};
use elf_image::ImageView;
use scale_base::{NoMemory, Range};
use std::alloc::Global;

fn jump_at(view: &ImageView<'_>, at: u32) -> Option<u32>
    requires image { image_of view.now.file ≡ Ok view.now }
    requires word { is_word_address view.now at ≡ true }
    ensures { result ≡ texts.jump_of (texts.instr_at (texts.text_of view.now) at) at }
{
    match instr_at(view, at) {
        Some(instr) => jump_of(&instr, at),
        None => None,
    }
}

/// Puts the targets of the branches and JALs of a range to the others.
fn add_targets(targets: &mut Vec<u32>, view: &ImageView<'_>, range: Range) -> Result<(), NoMemory>
    requires { IsWalked view.now range }
    ensures { IfOk result (λ _. (v : ℕ) → list_any (λ u. u == v) targets.new.items ≡
        (list_any (λ u. u == v) targets.old.items || texts.jumps_from (texts.text_of view.now) v range)) }
{
    for k in 0..range.to.saturating_sub(range.from) / 4 {
        if let Some(to) = jump_at(view, range.from + 4 * k) {
            targets.push(to)?;
        }
    }
    Ok(())
}

/// The entry and where the branches and JALs of the text go, ascending. How often one of them stands there is free.
pub fn targets_of(alloc: Global, view: &ImageView<'_>) -> Result<Vec<u32>, NoMemory>
    ensures targets { IfOk result (λ targets. AreTargetsOf (texts.text_of view.now) targets.items) }
    ensures rising { IfOk result (λ targets. Rise targets.items) }
{
    let text = view.text();
    let mut targets = Vec::new(alloc);
    targets.push(view.entry())?;
    for range in text {
        add_targets(&mut targets, view, *range)?;
    }
    targets.sort()?;
    Ok(targets)
}
