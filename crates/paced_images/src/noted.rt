//! The notes of loops, with those counted that are to be.

ghost use Rattle.std.specs.Prelude.{◌≡◌, IfOk};
ghost use Rattle.loop_file.specs.Notes.{IsLoopNote};
ghost use Rattle.cost_theory.specs.Lists.{is_among};
ghost use Rattle.paced_images.specs.Wanted.{note_by, notes_by};

use loop_file::{LoopNote, LoopNotes, RangeList};
use scale_base::NoMemory;
use std::alloc::Global;

/// Whether an address is among others.
pub fn is_among(at: u32, others: &[u32]) -> bool
    ensures { result ≡ is_among at others.now }
{
    let Some((first, rest)) = others.split_first() else {
        return false;
    };
    *first == at || is_among(at, rest)
}

/// The same ranges once more.
fn copied(alloc: Global, ranges: &RangeList) -> Result<RangeList, NoMemory>
    ensures { IfOk result (λ r. r ≡ ranges.now) }
{
    let mut items = Vec::new(alloc);
    for k in 0..ranges.count() {
        items.push(*ranges.get(k))?;
    }
    Ok(RangeList::from_vec(items))
}

/// A note with what is wanted of its loop: whether it is counted.
fn note_by(
    alloc: Global,
    note: &LoopNote,
    counted: bool,
    tallied: &[u32],
) -> Result<LoopNote, NoMemory>
    requires { IsLoopNote note.now }
    ensures note { IfOk result (λ n. n ≡ note_by counted tallied.now note.now) }
    ensures in_range { IfOk result IsLoopNote }
{
    Ok(LoopNote {
        header: note.header,
        ranges: copied(alloc, &note.ranges)?,
        bound: note.bound,
        counted: is_among(note.header, tallied) || (counted && note.counted),
        at_least: note.at_least,
    })
}

/// The notes of a program's loops: the loop at a tallied header is counted, and any other one where `counted` and its note says so.
pub fn notes_by(
    alloc: Global,
    notes: &LoopNotes,
    counted: bool,
    tallied: &[u32],
) -> Result<LoopNotes, NoMemory>
    ensures { IfOk result (λ n. n ≡ notes_by counted tallied.now notes.now) }
{
    let mut given = LoopNotes::new(alloc);
    for k in 0..notes.count() {
        given.push(note_by(alloc, notes.note(k), counted, tallied)?)?;
    }
    Ok(given)
}
