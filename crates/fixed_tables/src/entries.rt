//! Tables in bytes of the file that no store can change, and the targets that they give.

ghost use Rattle.std.specs.Prelude.{◌≡◌, ℕ, ◌<◌, ◌≤◌, true, IfOk, IfSome, length, slice_index};
ghost use Rattle.elf_image.specs.Segment.{segment_value};
ghost use Rattle.fixed_tables.specs.Tables.{IsEntry, IsFixedWord, IsTableOf, HasFixedWord, IsIn, AreIn};

use crate::table::Table;
use elf_image::{ImageView, Segment, word};
use scale_base::{NoMemory, PF_W};
use std::alloc::Global;

// The word that a segment loads at an address, where no store can change it.
fn segment_word(segment: &Segment<'_>, at: u32) -> Option<u32>
    ensures { IfSome result (λ w. HasFixedWord (segment_value segment.now) at w) }
{
    if segment.flags & PF_W != 0 || at < segment.from {
        return None;
    }
    let offset = at - segment.from;
    if u64::from(offset) + 4 > segment.file.len() as u64
        || u64::from(segment.file_at) + u64::from(offset) < 52
    {
        return None;
    }
    Some(word(segment.file, offset as usize))
}

/// The word at an address that no store can change.
pub fn fixed_word(view: &ImageView<'_>, at: u32) -> Option<u32>
    ensures { IfSome result (λ w. IsFixedWord view.now at w) }
{
    for k in 0..view.segment_count() {
        let segment = view.segment(k);
        if let Some(found) = segment_word(&segment, at) {
            return Some(found);
        }
    }
    None
}

// The target that a word of a table gives.
fn entry_at(view: &ImageView<'_>, table: Table, k: u32) -> Option<u32>
    ensures { IfSome result (λ target. IsEntry view.now table k target) }
{
    let at = u64::from(table.at) + u64::from(table.step) * u64::from(k);
    if at >= 0x1_0000_0000 {
        return None;
    }
    let found = fixed_word(view, at as u32)?;
    Some(table.base.wrapping_add(found))
}

/// The targets that the words of a table give, in its order. None where one of them isn't in bytes that no store can change.
pub fn entries_of(
    alloc: Global,
    view: &ImageView<'_>,
    table: Table,
) -> Result<Option<Vec<u32>>, NoMemory>
    ensures size { IfOk result (λ found. IfSome found (λ entries. length entries.items ≡ table.count)) }
    ensures entries { IfOk result (λ found. IfSome found (λ entries. (k : ℕ) → k < table.count →
        IsEntry view.now table k (slice_index entries.items k))) }
{
    let mut entries = Vec::new(alloc);
    for k in 0..table.count {
        let Some(entry) = entry_at(view, table, k) else {
            return Ok(None);
        };
        entries.push(entry)?;
    }
    Ok(Some(entries))
}

// Whether a number is in a list.
fn is_in(numbers: &[u32], number: u32) -> bool
    ensures { result ≡ true → IsIn number numbers.now }
{
    for other in numbers {
        if *other == number {
            return true;
        }
    }
    false
}

// Whether each number of a list is in another one.
fn are_in(numbers: &[u32], others: &[u32]) -> bool
    ensures { result ≡ true → AreIn numbers.now others.now }
{
    for number in numbers {
        if !is_in(others, *number) {
            return false;
        }
    }
    true
}

// Whether two lists have the same numbers.
fn are_alike(numbers: &[u32], others: &[u32]) -> bool
    ensures one { result ≡ true → AreIn numbers.now others.now }
    ensures other { result ≡ true → AreIn others.now numbers.now }
{
    let one = are_in(numbers, others);
    let other = are_in(others, numbers);
    one && other
}

/// Whether targets are those that the words of a table give.
pub fn is_table_of(
    alloc: Global,
    view: &ImageView<'_>,
    table: Table,
    targets: &[u32],
) -> Result<bool, NoMemory>
    ensures { IfOk result (λ same. same ≡ true → IsTableOf view.now table targets.now) }
{
    match entries_of(alloc, view, table)? {
        Some(entries) => Ok(are_alike(&entries, targets)),
        None => Ok(false),
    }
}
