//! Whether the notes of a version are right: by its draft, or as those of copies.

ghost use Rattle.std.specs.Prelude.{◌≡◌, ◌<◌, length, true};
ghost use Rattle.version_loops.specs.Checked as checked;

use copy_checks::{CopyCode, CopyReason, are_covered};
use loop_file::{LoopNote, LoopNotes, RangeList};

/// The bound of a drafted loop that has none.
pub const OPEN_BOUND: u32 = 1_000_000_000;

/// The code of a version, the notes of its original, and those of its own draft.
#[derive(Clone, Copy)]
pub struct VersionNotes<'a> {
    pub code: CopyCode<'a>,
    pub olds: &'a LoopNotes,
    pub drafted: &'a LoopNotes,
}

// Whether two lists have the same ranges.
fn are_ranges_same(one: &RangeList, other: &RangeList) -> bool
    ensures { result ≡ true → one.now ≡ other.now }
{
    if one.count() != other.count() {
        return false;
    }
    for k in 0..one.count() {
        if *one.get(k) != *other.get(k) {
            return false;
        }
    }
    true
}

// Whether a note has the bound of a drafted one.
fn is_drafted_as(drafted: &LoopNote, note: &LoopNote) -> bool
    ensures { result ≡ true → checked.IsDraftedAs drafted.now note.now }
{
    note.header == drafted.header
        && note.bound == drafted.bound
        && drafted.bound != OPEN_BOUND
        && are_ranges_same(&note.ranges, &drafted.ranges)
}

// Whether it has, where there is no reason why it should be that of a copy.
fn is_kept_so(reason: &Option<CopyReason>, drafted: &LoopNote, note: &LoopNote) -> bool
    ensures { result ≡ true → checked.IsKeptSo reason.now drafted.now note.now }
{
    match reason {
        Some(_) => true,
        None => is_drafted_as(drafted, note),
    }
}

// The same of each note.
fn are_kept_so(reasons: &[Option<CopyReason>], drafted: &LoopNotes, notes: &LoopNotes) -> bool
    requires drafted { length notes.now ≡ length drafted.now }
    requires reasons { length notes.now ≡ length reasons.now }
    ensures { result ≡ true → checked.AreKeptSo reasons.now drafted.now notes.now }
{
    for k in 0..notes.count() {
        if !is_kept_so(&reasons[k], drafted.note(k), notes.note(k)) {
            return false;
        }
    }
    true
}

/// Whether each note of a version has the bound of its draft, or there is a reason why it is one of a copy, which the code shows.
pub fn are_right(
    version: &VersionNotes<'_>,
    notes: &LoopNotes,
    reasons: &[Option<CopyReason>],
) -> bool
    ensures { result ≡ true → checked.AreRight version.now.code version.now.olds.now version.now.drafted.now notes.now reasons.now }
{
    if notes.count() != version.drafted.count() || notes.count() != reasons.len() {
        return false;
    }
    are_covered(&version.code, notes, version.olds, reasons)
        && are_kept_so(reasons, version.drafted, notes)
}
