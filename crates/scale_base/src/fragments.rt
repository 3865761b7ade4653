//! Marks on edges, and the fragments of code that stand for them.

ghost use Rattle.std.specs.Prelude.{◌≡◌, ◌<◌, ◌≤◌, ◌++◌, ◌∷◌, [], length, slice_index};

use std::marker::Model;

/// What stands on an edge. A counter is the number of its word in the window.
#[derive(Clone, Copy, PartialEq, Eq)]
pub enum Mark {
    /// The level is chosen anew.
    Switch,
    /// A counted loop is left: the level is chosen by its count, and the count begins anew.
    Exit(u16),
    /// A counted loop is left: its count begins anew.
    Reset(u16),
    /// A counted loop takes a back edge.
    Count(u16),
    /// The lowest level is chosen.
    Lowest,
    /// A counted loop takes a back edge, and from a count on the lowest level is chosen.
    Tally(u16),
}

/// The words of the rows of a table: `len` of them, and behind them zeros. Contracts see their list.
#[derive(Drop)]
pub struct Rows {
    pub words: [u32; 16],
    pub len: u8,
}

impl Model for Rows {
    ghost use Rattle.std.specs.Prelude.{◌≡◌, ℕ, ◌≤◌, List, length, slice_index, take};

    ghost Value = { List ℕ };

    ghost view = { λ r. take r.len r.words };

    ghost invariant = { λ r. (r.len ≤ 16) × (length r.words ≡ 16) × ((i : ℕ) → r.len ≤ i → slice_index r.words i ≡ 0) };
}

impl Rows {
    /// No rows.
    pub fn new() -> Rows
        ensures { result ≡ [] }
    {
        Rows {
            words: [0; 16],
            len: 0,
        }
    }

    /// One more row.
    pub fn push(&mut self, word: u32)
        requires { length self.old < 16 }
        ensures { self.new ≡ self.old ++ word ∷ [] }
    {
        self.words[usize::from(self.len)] = word;
        self.len += 1;
    }

    /// How many rows there are.
    pub fn count(&self) -> u8
        ensures count { result ≡ length self.now }
        ensures few { result ≤ 16 }
    {
        self.len
    }

    /// Row `k`.
    pub fn get(&self, k: u8) -> u32
        requires { k < length self.now }
        ensures { result ≡ slice_index self.now k }
    {
        self.words[usize::from(k)]
    }
}

/// The code of a mark. A counter is the number of its word in the window.
#[derive(Drop)]
pub enum Fragment {
    /// Stores the word's entry for the level at the speed port: four bits for each level, the lowest first.
    Switch { word: u32 },
    /// Stores the entry for the level of one row, that of the counter shifted to the right, and sets the counter to 0.
    Exit { counter: u16, shift: u8, rows: Rows },
    /// Sets the counter to 0.
    Reset { counter: u16 },
    /// Adds one to the counter.
    Count { counter: u16 },
    /// Stores level 0 at the speed port where `down`, and else nothing there.
    Lowest { down: bool },
    /// Adds one to the counter, and where that then is at least `from` when it is shifted to the right, stores level 0 at the speed port.
    Tally { counter: u16, shift: u8, from: u16 },
}
