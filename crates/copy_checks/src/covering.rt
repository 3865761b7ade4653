//! Whether each loop of a versioned image has a reason for its bound.

ghost use Rattle.std.specs.Prelude.{◌≡◌, ◌<◌, Some, length, slice_get, true};
ghost use Rattle.copy_checks.specs.Checked as checked;

use crate::copies::is_copy_shown;
use crate::tables::{CopyCode, CopyTable};
use loop_file::{LoopNote, LoopNotes};

/// Why a loop of a versioned image keeps its bound as a copy: the number of the note of the loop that it copies, and a table.
#[derive(Drop)]
pub struct CopyReason {
    pub number: usize,
    pub table: CopyTable,
}

// Whether a noted loop is a copy for a reason.
fn is_reason(code: &CopyCode<'_>, note: &LoopNote, olds: &LoopNotes, reason: &CopyReason) -> bool
    ensures { result ≡ true → checked.IsCopied code.now note.now olds.now }
{
    if reason.number >= olds.count() {
        return false;
    }
    is_copy_shown(code, note, olds.note(reason.number), &reason.table)
}

// Whether the loop of note k is a copy, or has no reason here.
fn is_covered(
    code: &CopyCode<'_>,
    note: &LoopNote,
    olds: &LoopNotes,
    reason: &Option<CopyReason>,
) -> bool
    ensures { result ≡ true → checked.IsCovered code.now note.now olds.now reason.now }
{
    if note.at_least != 0 {
        return false;
    }
    match reason {
        Some(reason) => is_reason(code, note, olds, reason),
        None => true,
    }
}

// What is given of note k.
fn reason_at(reasons: &[Option<CopyReason>], k: usize) -> &Option<CopyReason>
    requires { k < length reasons.now }
    ensures { slice_get reasons.now k ≡ Some result.now }
{
    &reasons[k]
}

/// Whether no loop of a versioned image has to turn before it is left, and each that has a reason is a copy for that reason: then what is
/// left of it is to show the bounds of those without one. There is a reason, or none, for each note.
pub fn are_covered(
    code: &CopyCode<'_>,
    notes: &LoopNotes,
    olds: &LoopNotes,
    reasons: &[Option<CopyReason>],
) -> bool
    ensures { result ≡ true → checked.AreCopied code.now notes.now olds.now reasons.now }
{
    if reasons.len() != notes.count() {
        return false;
    }
    for k in 0..notes.count() {
        if !is_covered(code, notes.note(k), olds, reason_at(reasons, k)) {
            return false;
        }
    }
    true
}
