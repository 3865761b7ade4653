//! Notes of loops with other bounds, and whether a file has the notes that are wanted.

ghost use Rattle.std.specs.Prelude.{◌≡◌, true, IfOk, count_by};
ghost use Rattle.loop_drafts.specs.Bounds.{bounded_by, is_bounded, turning_by};

use loop_file::{LoopNote, LoopNotes, RangeList};
use scale_base::NoMemory;
use std::alloc::Global;

/// The greatest bound that a loop file may have: that of a loop whose bound isn't known.
pub const GREATEST_BOUND: u32 = 1_000_000_000;

// The same ranges once more.
fn copied(alloc: Global, ranges: &RangeList) -> Result<RangeList, NoMemory>
    ensures { IfOk result (λ r. r ≡ ranges.now) }
{
    let mut items = Vec::new(alloc);
    for k in 0..ranges.count() {
        items.push(*ranges.get(k))?;
    }
    Ok(RangeList::from_vec(items))
}

/// The note of a loop with a bound, where the loop need not turn, and is counted or isn't.
pub fn bounded_by(
    alloc: Global,
    note: &LoopNote,
    bound: u32,
    counted: bool,
) -> Result<LoopNote, NoMemory>
    ensures { IfOk result (λ n. n ≡ bounded_by bound counted note.now) }
{
    Ok(LoopNote {
        header: note.header,
        ranges: copied(alloc, &note.ranges)?,
        bound,
        counted,
        at_least: 0,
    })
}

/// The note of a loop that turns so often at least.
pub fn turning_by(note: LoopNote, at_least: u32) -> LoopNote
    ensures { result ≡ turning_by at_least note }
{
    LoopNote { at_least, ..note }
}

// Whether two lists have the same ranges.
fn are_ranges_same(one: &RangeList, other: &RangeList) -> bool
    ensures { result ≡ true → one.now ≡ other.now }
{
    if one.count() != other.count() {
        return false;
    }
    for k in 0..one.count() {
        if *one.get(k) != *other.get(k) {
            return false;
        }
    }
    true
}

// Whether two notes are the same.
fn is_note_same(one: &LoopNote, other: &LoopNote) -> bool
    ensures { result ≡ true → one.now ≡ other.now }
{
    one.header == other.header
        && one.bound == other.bound
        && one.counted == other.counted
        && one.at_least == other.at_least
        && are_ranges_same(&one.ranges, &other.ranges)
}

/// Whether the notes of a file are those that are wanted.
pub fn are_wanted(notes: &LoopNotes, wanted: &[LoopNote]) -> bool
    ensures { result ≡ true → notes.now ≡ wanted.now }
{
    if notes.count() != wanted.len() {
        return false;
    }
    for (k, note) in wanted.iter().enumerate() {
        if !is_note_same(notes.note(k), note) {
            return false;
        }
    }
    true
}

/// How many notes have a bound that isn't the greatest.
pub fn count_bounded(notes: &[LoopNote]) -> usize
    ensures { result ≡ count_by is_bounded notes.now }
{
    notes
        .iter()
        .filter(|note| note.bound != GREATEST_BOUND)
        .count()
}
