//! Which noted jumps may be lowered, and their order.

ghost use Rattle.std.specs.Prelude.{◌≡◌, [], ◌≤◌, ◌<◌, ◌+◌, ◌-◌, ◌%◌, ◌++◌, ◌==◌, ◌&&◌, not, map, IfOk, IfSome, Some, Ok, length, filter, count_by, true};
ghost use Rattle.std.specs.List.{list_any, list_all};
ghost use Rattle.scale_base.specs.Image.{image_of, is_in, is_word_address};
ghost use Rattle.scale_base.specs.Word.{FieldsInRange};
ghost use Rattle.code_text.specs.Text as texts;
ghost use Rattle.code_text.specs.Walk.{Rise};
ghost use Rattle.image_lower.specs.Entered.{AreWaysIn};
ghost use Rattle.image_lower.specs.Block as block;

use crate::far::far_jump;
use elf_image::ImageView;
use jump_lists::JumpNote;
use rv_decode::decode;
use scale_base::{Instr, NoMemory, Range};
use std::alloc::Global;

/// The register of a `jalr x0,0(rs)` with another register than x0 and x1.
fn register_of(instr: &Instr) -> Option<u8>
    requires { FieldsInRange instr.now }
    ensures register { result ≡ block.jump_register (Some instr.now) }
    ensures small { IfSome result (λ r. r < 32) }
{
    match *instr {
        Instr::Jalr { rd, rs1, offset } => {
            if rd == 0 && offset == 0 && !(rs1 == 0 || rs1 == 1) {
                Some(rs1)
            } else {
                None
            }
        }
        _ => None,
    }
}

/// That of the word of the text at an address.
pub fn register_at(view: &ImageView<'_>, at: u32) -> Option<u8>
    ensures register { result ≡ block.register_at view.now at }
    ensures small { IfSome result (λ r. r < 32) }
{
    match view.word_at(at) {
        Some(word) => match decode(word) {
            Some(instr) => register_of(&instr),
            None => None,
        },
        None => None,
    }
}

fn is_twice(notes: &[JumpNote], at: u32) -> bool
    ensures { result ≡ block.is_twice notes.now at }
{
    notes.iter().filter(|n| n.at == at).count() > 1
}

fn has_both(text: &[Range], at: u32) -> bool
    requires { 4 ≤ at }
    ensures { result ≡ list_any (λ r. is_in (at - 4) r && is_in at r) text.now }
{
    for range in text {
        if range.contains(at - 4) && range.contains(at) {
            return true;
        }
    }
    false
}

/// Whether the word right before an address is in one range with it.
fn follows(view: &ImageView<'_>, at: u32) -> bool
    ensures { result ≡ texts.follows (texts.text_of view.now) at }
{
    at >= 4 && has_both(view.text(), at)
}

fn all_words(view: &ImageView<'_>, targets: &[u32]) -> bool
    ensures { result ≡ list_all (is_word_address view.now) targets.now }
{
    for target in targets {
        if !view.is_text_word(*target) {
            return false;
        }
    }
    true
}

#[tactic(auto, using(crate::proofs::Follows::words_there))]
fn is_bad(view: &ImageView<'_>, notes: &[JumpNote], entered: &[u32], note: &JumpNote) -> bool
    requires image { image_of view.now.file ≡ Ok view.now }
    requires entered { AreWaysIn (texts.text_of view.now) notes.now entered.now }
    requires rising { Rise entered.now }
    ensures { result ≡ block.is_bad view.now notes.now note.now }
{
    is_twice(notes, note.at)
        || register_at(view, note.at).is_none()
        || far_jump(view, notes, entered, note.at, follows(view, note.at)).is_some()
        || !all_words(view, note.targets.as_slice())
}

fn lesser(at: u32, other: Option<u32>) -> u32
    ensures { result ≡ block.lesser_address at other }
{
    match other {
        Some(other) => { if other < at { other } else { at } }
        None => at,
    }
}

/// The least address of those of some noted jumps that can't be lowered.
fn least_bad_of(
    view: &ImageView<'_>,
    notes: &[JumpNote],
    entered: &[u32],
    some: &[JumpNote],
) -> Option<u32>
    requires image { image_of view.now.file ≡ Ok view.now }
    requires entered { AreWaysIn (texts.text_of view.now) notes.now entered.now }
    requires rising { Rise entered.now }
    ensures { result ≡ block.least_address (block.is_bad view.now notes.now) some.now }
{
    match some {
        [] => None,
        [first, others @ ..] => {
            let later = least_bad_of(view, notes, entered, others);
            if is_bad(view, notes, entered, first) {
                Some(lesser(first.at, later))
            } else {
                later
            }
        }
    }
}

/// The least address of a noted jump that can't be lowered.
pub fn least_bad(view: &ImageView<'_>, notes: &[JumpNote], entered: &[u32]) -> Option<u32>
    requires image { image_of view.now.file ≡ Ok view.now }
    requires entered { AreWaysIn (texts.text_of view.now) notes.now entered.now }
    requires rising { Rise entered.now }
    ensures { result ≡ block.least_address (block.is_bad view.now notes.now) notes.now }
{
    least_bad_of(view, notes, entered, notes)
}

/// How many of the notes come before an address: as far as none stands behind it.
fn place_of(sorted: &[&JumpNote], at: u32) -> usize
    ensures within { result ≤ length sorted.now }
    ensures place { (note : JumpNote) → note.at ≡ at → block.insert_note (map (λ n. n.now) sorted.now) note ≡ block.put_note
        (map (λ n. n.now) sorted.now) result note }
{
    for (k, note) in sorted.iter().enumerate() {
        if at < note.at {
            return k;
        }
    }
    sorted.len()
}

/// The notes in ascending order of their addresses.
#[tactic(auto, unfolding(crate::specs::Block::ascending_notes))]
pub fn ascending<'n>(alloc: Global, notes: &'n [JumpNote]) -> Result<Vec<&'n JumpNote>, NoMemory>
    ensures { IfOk result (λ sorted. map (λ n. n.now) sorted.items ≡ block.ascending_notes notes.now) }
{
    let mut sorted = Vec::new(alloc);
    for note in notes {
        let place = place_of(&sorted, note.at);
        sorted.insert(place, note)?;
    }
    Ok(sorted)
}
