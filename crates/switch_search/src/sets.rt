//! Sets of marks.

use crate::candidates::MOST;

/// What form the marks of a set have: switches to the lowest level on edges, or switches by words; whether loops may be tallied; and the share of the
/// lent time that levels between the starting and the lowest one get, in quarters.
#[derive(Clone, Copy, PartialEq, Eq)]
pub struct Form {
    pub lowest: bool,
    pub tallies: bool,
    pub share: u8,
}

/// Some of the candidates, by their numbers, in a form.
#[derive(Clone, Copy, PartialEq, Eq)]
pub struct MarkSet {
    flags: [bool; 24],
    pub form: Form,
}

impl MarkSet {
    /// None of them.
    pub fn empty(form: Form) -> MarkSet {
        MarkSet {
            flags: [false; 24],
            form,
        }
    }

    /// Whether candidate `c` is in the set.
    pub fn contains(&self, c: usize) -> bool {
        c < MOST && self.flags[c]
    }

    /// The set with candidate `c`.
    pub fn with(&self, c: usize) -> MarkSet {
        let mut set = *self;
        if c < MOST {
            set.flags[c] = true;
        }
        set
    }

    /// The set without candidate `c`.
    pub fn without(&self, c: usize) -> MarkSet {
        let mut set = *self;
        if c < MOST {
            set.flags[c] = false;
        }
        set
    }

    /// How many there are.
    pub fn count(&self) -> usize {
        self.flags.iter().filter(|flag| **flag).count()
    }
}

/// A set, the energy of the runs with it, by their weights, that of the runs on inputs, without weights, and the cycles that its stubs add at most to a run
/// that begins at the same level with them.
#[derive(Clone, Copy)]
pub struct Priced {
    pub set: MarkSet,
    pub energy: u128,
    pub inputs: u128,
    pub added: u64,
}

impl Priced {
    /// One that is out: it takes more than any.
    pub fn out(set: MarkSet) -> Priced {
        Priced {
            set,
            energy: u128::MAX,
            inputs: u128::MAX,
            added: u64::MAX,
        }
    }
}
