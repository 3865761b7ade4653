//! The notes of a program's jumps.

ghost use Rattle.std.specs.Prelude.{◌≡◌, ◌<◌, ◌++◌, ◌∷◌, [], length, slice_get, Some, OnOk, OnErr};
ghost use Rattle.jump_lists.specs.Notes.{IsJumpNote, AreJumpNotes};

use std::alloc::{AllocError, Global};
use std::marker::Model;

/// Addresses that a jump leads to. Contracts see their list.
#[derive(Drop)]
pub struct TargetList {
    items: Vec<u32>,
}

impl Model for TargetList {
    ghost use Rattle.std.specs.Prelude.{List, ℕ};

    ghost Value = { List ℕ };

    ghost view = { λ t. t.items.items };
}

impl TargetList {
    /// The list of these addresses.
    pub fn from_vec(items: Vec<u32>) -> TargetList
        ensures { result ≡ items.items }
    {
        TargetList { items }
    }

    /// How many addresses there are.
    pub fn count(&self) -> usize
        ensures { result ≡ length self.now }
    {
        self.items.len()
    }

    /// Address `k`.
    pub fn get(&self, k: usize) -> &u32
        requires { k < length self.now }
        ensures { slice_get self.now k ≡ Some result.now }
    {
        &self.items[k]
    }

    /// The addresses.
    pub fn as_slice(&self) -> &[u32]
        ensures { result.now ≡ self.now }
    {
        &self.items
    }
}

/// What is noted of a jump: the address of its word, and where it may lead.
#[derive(Drop)]
pub struct JumpNote {
    pub at: u32,
    pub targets: TargetList,
}

/// The notes of the jumps of a file, in its order: at most 1,024, each with 1 to 128 distinct targets, and each address a multiple
/// of 4. Contracts see their list.
#[derive(Drop)]
pub struct JumpNotes {
    items: Vec<JumpNote>,
}

impl Model for JumpNotes {
    ghost use Rattle.std.specs.Prelude.{List};
    ghost use Rattle.jump_lists.specs.declared.notes.JumpNote.{JumpNote};
    ghost use Rattle.jump_lists.specs.Notes.{AreJumpNotes};

    ghost Value = { List JumpNote };

    ghost view = { λ n. n.items.items };

    ghost invariant = { λ n. AreJumpNotes n.items.items };
}

impl JumpNotes {
    /// No notes.
    pub fn new(alloc: Global) -> JumpNotes
        ensures { result ≡ [] }
    {
        JumpNotes {
            items: Vec::new(alloc),
        }
    }

    /// Appends a note. An error says that memory ran out, and leaves the notes as they were.
    pub fn push(&mut self, note: JumpNote) -> Result<(), AllocError>
        requires few { length self.old < 1024 }
        requires note { IsJumpNote note }
        ensures pushed { OnOk result (self.new ≡ self.old ++ note ∷ []) }
        ensures unchanged { OnErr result (self.new ≡ self.old) }
    {
        self.items.push(note)?;
        Ok(())
    }

    /// How many notes there are.
    pub fn count(&self) -> usize
        ensures count { result ≡ length self.now }
        ensures in_range { AreJumpNotes self.now }
    {
        self.items.len()
    }

    /// Note `k`.
    pub fn get(&self, k: usize) -> &JumpNote
        requires { k < length self.now }
        ensures note { slice_get self.now k ≡ Some result.now }
        ensures in_range { IsJumpNote result.now }
    {
        &self.items[k]
    }

    /// The notes.
    pub fn as_slice(&self) -> &[JumpNote]
        ensures notes { result.now ≡ self.now }
        ensures in_range { AreJumpNotes self.now }
    {
        &self.items
    }
}
