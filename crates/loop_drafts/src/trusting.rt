//! What a draft trusts: stores of which nothing is known, taken to change no word of the stack that is kept.

ghost use Rattle.std.specs.Prelude.{◌≡◌, count_by, IfOk};
ghost use Rattle.loop_drafts.specs.Trusting.{AreNoneTrusted, Trusts, trusted_stores};

use scale_base::NoMemory;
use stack_tables::StackTable;
use std::alloc::Global;

/// By node, whether its store is trusted to change no word of the stack that is kept; and by function and number, whether a word of its stack is one of
/// those: word k lies 4 * (k + 1) bytes below what x2 had when its function began.
#[derive(Drop)]
pub struct Trust {
    pub stores: Vec<bool>,
    pub words: Vec<[bool; 64]>,
}

impl Trust {
    /// No store is trusted.
    pub fn none(alloc: Global) -> Trust
        ensures { AreNoneTrusted result }
    {
        Trust {
            stores: Vec::new(alloc),
            words: Vec::new(alloc),
        }
    }

    /// What tables trust.
    pub fn of(alloc: Global, stack: &StackTable) -> Result<Trust, NoMemory>
        ensures { IfOk result (Trusts stack.now) }
    {
        Ok(Trust {
            stores: Vec::from_slice(alloc, &stack.doubtful)?,
            words: Vec::from_slice(alloc, &stack.kept)?,
        })
    }

    /// How many stores are trusted.
    pub fn count(&self) -> usize
        ensures { result ≡ trusted_stores self.now }
    {
        self.stores.iter().filter(|is| **is).count()
    }
}
