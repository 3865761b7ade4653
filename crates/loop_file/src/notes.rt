//! The notes of a program's loops.

ghost use Rattle.std.specs.Prelude.{◌≡◌, ◌<◌, ◌++◌, ◌∷◌, [], length, map, slice_get, Some, IfOk, OnOk, OnErr};
ghost use Rattle.loop_file.specs.Notes.{IsLoopNote, AreLoopNotes, relaxed_note, uncounted_note};

use scale_base::{NoMemory, Range};
use std::alloc::{AllocError, Global};
use std::marker::Model;

/// Ranges of addresses. Contracts see their list.
#[derive(Drop)]
pub struct RangeList {
    items: Vec<Range>,
}

impl Model for RangeList {
    ghost use Rattle.std.specs.Prelude.{List};
    ghost use Rattle.scale_base.specs.declared.ranges.Range.{Range};

    ghost Value = { List Range };

    ghost view = { λ r. r.items.items };
}

impl RangeList {
    /// The list of these ranges.
    pub fn from_vec(items: Vec<Range>) -> RangeList
        ensures { result ≡ items.items }
    {
        RangeList { items }
    }

    /// How many ranges there are.
    pub fn count(&self) -> usize
        ensures { result ≡ length self.now }
    {
        self.items.len()
    }

    // The same ranges once more.
    fn copied(&self, alloc: Global) -> Result<RangeList, NoMemory>
        ensures { IfOk result (λ ranges. ranges ≡ self.now) }
    {
        Ok(RangeList {
            items: self.items.to_vec(alloc)?,
        })
    }

    /// Range `k`.
    pub fn get(&self, k: usize) -> &Range
        requires { k < length self.now }
        ensures { slice_get self.now k ≡ Some result.now }
    {
        &self.items[k]
    }
}

/// What is noted of a loop: the address of its header, the ranges of addresses that it lies in, how many back edges one
/// entry of the loop may take, whether a shadow counter counts them, and how many of them an entry takes at least before the
/// loop is left.
#[derive(Drop)]
pub struct LoopNote {
    pub header: u32,
    pub ranges: RangeList,
    pub bound: u32,
    pub counted: bool,
    pub at_least: u32,
}

/// The greatest bound of a loop.
const GREATEST_BOUND: u32 = 1_000_000_000;

impl LoopNote {
    // The note with the greatest bound, of a loop that need not turn before it is left.
    fn relaxed(&self, alloc: Global) -> Result<LoopNote, NoMemory>
        requires { IsLoopNote self.now }
        ensures relaxed { IfOk result (λ note. note ≡ relaxed_note self.now) }
        ensures note { IfOk result IsLoopNote }
    {
        Ok(LoopNote {
            header: self.header,
            ranges: self.ranges.copied(alloc)?,
            bound: GREATEST_BOUND,
            counted: self.counted,
            at_least: 0,
        })
    }
}

/// The notes of the loops of a file, in its order: at most 4,096, each with 1 to 16 ranges and a bound of at most
/// 1,000,000,000, which `at_least` doesn't pass. Contracts see their list.
#[derive(Drop)]
pub struct LoopNotes {
    items: Vec<LoopNote>,
}

impl Model for LoopNotes {
    ghost use Rattle.std.specs.Prelude.{List};
    ghost use Rattle.loop_file.specs.declared.notes.LoopNote.{LoopNote};
    ghost use Rattle.loop_file.specs.Notes.{AreLoopNotes};

    ghost Value = { List LoopNote };

    ghost view = { λ n. n.items.items };

    ghost invariant = { λ n. AreLoopNotes n.items.items };
}

impl LoopNotes {
    /// No notes.
    pub fn new(alloc: Global) -> LoopNotes
        ensures { result ≡ [] }
    {
        LoopNotes {
            items: Vec::new(alloc),
        }
    }

    /// Appends a note. An error says that memory ran out, and leaves the notes as they were.
    pub fn push(&mut self, note: LoopNote) -> Result<(), AllocError>
        requires few { length self.old < 4096 }
        requires note { IsLoopNote note }
        ensures pushed { OnOk result (self.new ≡ self.old ++ note ∷ []) }
        ensures unchanged { OnErr result (self.new ≡ self.old) }
    {
        self.items.push(note)?;
        Ok(())
    }

    /// How many notes there are.
    pub fn count(&self) -> usize
        ensures count { result ≡ length self.now }
        ensures in_range { AreLoopNotes self.now }
    {
        self.items.len()
    }

    /// Note `k`.
    pub fn note(&self, k: usize) -> &LoopNote
        requires { k < length self.now }
        ensures note { slice_get self.now k ≡ Some result.now }
        ensures in_range { IsLoopNote result.now }
    {
        &self.items[k]
    }
    /// The same notes, with each bound 1,000,000,000 and each `at_least` 0: those that a run keeps as long as no loop takes more back
    /// edges than any file allows.
    #[tactic(auto, using(crate::proofs::Changed::relaxed_notes))]
    pub fn relaxed(&self, alloc: Global) -> Result<LoopNotes, NoMemory>
        ensures { IfOk result (λ notes. notes ≡ map relaxed_note self.now) }
    {
        let mut items = Vec::new(alloc);
        for note in &self.items {
            items.push(note.relaxed(alloc)?)?;
        }
        Ok(LoopNotes { items })
    }

    /// The same notes, with no loop counted.
    #[tactic(auto, using(crate::proofs::Changed::uncounted_notes))]
    pub fn uncounted(self) -> LoopNotes
        ensures { result ≡ map uncounted_note self }
    {
        let mut items = self.items;
        for note in items.iter_mut() {
            note.counted = false;
        }
        LoopNotes { items }
    }
}
