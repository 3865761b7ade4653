//! Which notes of a drafted file are those of tables, and which jumps are left.

ghost use Rattle.std.specs.Prelude.{◌≡◌, ◌++◌, ◌∷◌, [], ◌≤◌, ◌==◌, ◌&&◌, not, true, Ok, Some, IfOk, OnOk, length, filter, map};
ghost use Rattle.std.specs.List.{list_any, list_all};
ghost use Rattle.scale_base.specs.Image.{image_of, is_word_address};
ghost use Rattle.jump_drafts.specs.Jumps.{AreListed, IsListed, is_left, is_noted, left_in, left_of};
ghost use Rattle.jump_drafts.specs.Drafted.{IsLowerable};

use elf_image::ImageView;
use fixed_tables::{Table, is_table_of};
use image_lower::lower;
use jump_lists::{JumpNote, JumpNotes};
use jump_search::{FoundJumps, OpenJump, Reason, stands_at};
use scale_base::{IMAGE_LIMIT, NoMemory, Range, Refusal, Stop};
use std::alloc::Global;

// Whether each address is that of a word of the text.
fn are_words(view: &ImageView<'_>, targets: &[u32]) -> bool
    ensures { result ≡ list_all (is_word_address view.now) targets.now }
{
    for target in targets {
        if !view.is_text_word(*target) {
            return false;
        }
    }
    true
}

// Whether a note is that of a jump through a register, whose targets are words of the text and those of a table.
fn is_listed(
    alloc: Global,
    view: &ImageView<'_>,
    note: &JumpNote,
    table: Table,
) -> Result<bool, NoMemory>
    requires { image_of view.now.file ≡ Ok view.now }
    ensures { IfOk result (λ listed. listed ≡ true → IsListed view.now note.now table) }
{
    let targets = note.targets.as_slice();
    let jump = stands_at(view, note.at);
    let words = are_words(view, targets);
    let same = is_table_of(alloc, view, table, targets)?;
    Ok(jump && words && same)
}

/// Whether all notes are, each by the table of its number.
pub fn are_listed(
    alloc: Global,
    view: &ImageView<'_>,
    notes: &JumpNotes,
    tables: &[Table],
) -> Result<bool, NoMemory>
    requires { image_of view.now.file ≡ Ok view.now }
    ensures { IfOk result (λ listed. listed ≡ true → AreListed view.now notes.now tables.now) }
{
    if notes.count() != tables.len() {
        return Ok(false);
    }
    for (k, table) in tables.iter().enumerate() {
        if !is_listed(alloc, view, notes.get(k), *table)? {
            return Ok(false);
        }
    }
    Ok(true)
}

// Whether a jump at an address is noted.
fn is_noted(notes: &[JumpNote], at: u32) -> bool
    ensures { result ≡ is_noted notes.now at }
{
    for note in notes {
        if note.at == at {
            return true;
        }
    }
    false
}

// Whether a jump through a register stands at an address, and isn't noted.
fn is_left(view: &ImageView<'_>, notes: &[JumpNote], at: u32) -> bool
    requires { image_of view.now.file ≡ Ok view.now }
    ensures { result ≡ is_left view.now notes.now at }
{
    stands_at(view, at) && !is_noted(notes, at)
}

// Adds the jump at an address, if it is left.
fn push_if_left(
    others: &mut Vec<OpenJump>,
    view: &ImageView<'_>,
    notes: &[JumpNote],
    found: &FoundJumps,
    at: u32,
) -> Result<(), NoMemory>
    requires { image_of view.now.file ≡ Ok view.now }
    ensures { OnOk result (map (λ other. other.at) others.new.items ≡ map (λ other. other.at) others.old.items ++ filter
        (is_left view.now notes.now) (at ∷ [])) }
{
    if is_left(view, notes, at) {
        let reason = found.reason(at).unwrap_or(Reason::NotReached);
        others.push(OpenJump { at, reason })?;
    }
    Ok(())
}

// Adds the jumps of a range that are left.
fn push_left(
    others: &mut Vec<OpenJump>,
    view: &ImageView<'_>,
    notes: &[JumpNote],
    found: &FoundJumps,
    range: Range,
) -> Result<(), NoMemory>
    requires { image_of view.now.file ≡ Ok view.now }
    ensures { OnOk result (map (λ other. other.at) others.new.items ≡ map (λ other. other.at) others.old.items ++ left_in view.now
        notes.now range) }
{
    for k in 0..range.to.saturating_sub(range.from) / 4 {
        push_if_left(others, view, notes, found, range.from + 4 * k)?;
    }
    Ok(())
}

/// The jumps through registers that aren't noted, and why.
pub fn left_jumps(
    alloc: Global,
    view: &ImageView<'_>,
    notes: &[JumpNote],
    found: &FoundJumps,
) -> Result<Vec<OpenJump>, NoMemory>
    ensures { IfOk result (λ others. map (λ other. other.at) others.items ≡ left_of view.now notes.now) }
{
    let text = view.text();
    let mut others = Vec::new(alloc);
    for range in text {
        push_left(&mut others, view, notes, found, *range)?;
    }
    Ok(others)
}

/// Whether `lower` takes a jump file: it lowers the image by it, or refuses for want of reach or of room.
pub fn is_lowerable(alloc: Global, image: &[u8], jumps: &[u8]) -> Result<bool, NoMemory>
    requires { length image.now ≤ IMAGE_LIMIT }
    ensures { IfOk result (λ taken. taken ≡ true → IsLowerable image.now jumps.now) }
{
    match lower(alloc, image, jumps) {
        Ok(_) => Ok(true),
        Err(Stop::Refused(Refusal::LowerOutOfReach(_) | Refusal::NoRoom(_))) => Ok(true),
        Err(Stop::Refused(_)) => Ok(false),
        Err(Stop::Memory) => Err(NoMemory),
    }
}
