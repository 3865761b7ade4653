//! What is known at nodes, and what flows over a way.

ghost use Rattle.std.specs.Prelude.{◌≡◌, ◌<◌};

use crate::apart::raised;
use crate::arcs::shorter;
use crate::dwindling::Pairs;
use crate::lines::Lines;
use crate::names::Names;
use crate::rows::{copy_of, unknown, zeros};
use crate::tables::Row;
use crate::telling::Sentences;
use scale_base::NoMemory;
use stack_tables::{Dwindling, Name, Told, Word};
use std::alloc::Global;
use value_checks::Line;
use wrapped_intervals::{Arc, word};

/// How many words of a function's stack are looked at.
pub const WORD_COUNT: usize = 64;

/// A word of which nothing is known.
pub const UNKNOWN_WORD: Word = Word {
    arc: None,
    name: None,
    span: None,
};

/// What flows over a way: intervals of the registers, where their values come from, how far above the function's first x2 they point, and the words of
/// the function's stack, of which nothing is known from `count` on.
#[derive(Drop)]
pub struct State {
    pub row: Row,
    pub names: Names,
    pub spans: Row,
    /// Intervals of sums of two registers, and what those say of registers: by themselves, and of what flows.
    pub lines: Lines,
    pub solved: Row,
    pub met: Row,
    /// What registers tell of others.
    pub told: Sentences,
    /// Registers that are divided while others count how often.
    pub pairs: Pairs,
    words: [Word; 64],
    count: usize,
}

impl State {
    /// A state of which nothing is known.
    pub fn blank() -> State {
        State {
            row: unknown(),
            names: [None; 32],
            spans: unknown(),
            lines: Lines::none(),
            solved: unknown(),
            met: unknown(),
            told: Sentences::none(),
            pairs: Pairs::none(),
            words: [UNKNOWN_WORD; 64],
            count: 0,
        }
    }

    /// Forgets all words.
    pub fn forget_words(&mut self) {
        self.count = 0;
    }

    /// Forgets all sums, what registers tell and which are divided, with what they say.
    pub fn forget_lines(&mut self) {
        self.lines.clear();
        self.told.clear();
        self.pairs.clear();
        self.forget_solved();
    }

    /// Forgets what sums and others say of registers.
    pub fn forget_solved(&mut self) {
        self.solved = unknown();
        self.met = unknown();
    }

    /// Takes what a sum says of a register, and what of that flows, or what another one tells of it.
    pub fn solve(&mut self, r: usize, arc: Option<Arc>, met: Option<Arc>) {
        if r < 32 {
            self.solved[r] = shorter(self.solved[r], arc);
            self.met[r] = shorter(self.met[r], met);
        }
    }

    /// How many words are known at most.
    pub fn count(&self) -> usize {
        self.count.min(WORD_COUNT)
    }

    /// A word.
    pub fn word(&self, k: usize) -> Word {
        if k < self.count {
            self.words.get(k).copied().unwrap_or(UNKNOWN_WORD)
        } else {
            UNKNOWN_WORD
        }
    }

    /// Puts a word in the place of another.
    pub fn set_word(&mut self, k: usize, word: Word) {
        if k >= WORD_COUNT {
            return;
        }
        for j in self.count..k {
            if j < WORD_COUNT {
                self.words[j] = UNKNOWN_WORD;
            }
        }
        self.count = self.count.max(k + 1);
        self.words[k] = word;
    }
}

/// A word of those that are known.
pub fn word_at(words: &[Word], k: usize) -> Word {
    words.get(k).copied().unwrap_or(UNKNOWN_WORD)
}

/// What is known at a node, before its instruction.
#[derive(Drop)]
pub struct Facts {
    pub row: Row,
    pub names: Names,
    pub spans: Row,
    pub words: Vec<Word>,
    pub lines: Vec<Line>,
    pub told: Vec<Told>,
    pub dwindling: Vec<Dwindling>,
}

impl Facts {
    /// Lets the node be one to which no state comes.
    pub fn forget(&mut self) {
        self.row = zeros();
        self.names = [None; 32];
        self.spans = unknown();
        self.words.clear();
        self.lines.clear();
        self.told.clear();
        self.dwindling.clear();
    }

    /// A word.
    pub fn word(&self, k: usize) -> Word {
        word_at(&self.words, k)
    }
}

/// So many nodes of which a row alone is known.
pub fn facts_of(alloc: Global, count: usize, row: Row) -> Result<Vec<Facts>, NoMemory> {
    let mut facts = Vec::new(alloc);
    for _ in 0..count {
        facts.push(Facts {
            row: copy_of(&row),
            names: [None; 32],
            spans: unknown(),
            words: Vec::new(alloc),
            lines: Vec::new(alloc),
            told: Vec::new(alloc),
            dwindling: Vec::new(alloc),
        })?;
    }
    Ok(facts)
}

/// The interval of a value by its name, where that is of a word or of what x2 had when the function began.
pub fn name_arc(name: Option<Name>, words: &[Word], begins: &Option<Arc>) -> Option<Arc> {
    match name? {
        Name::OfWord(k, more) => { raised(word_at(words, k as usize).arc, more).or(word()) }
        Name::OfBegin(2, more) => raised(*begins, more),
        Name::OfBegin(_, _) => None,
    }
}

/// The same of a value that flows.
pub fn flowing_arc(name: Option<Name>, state: &State, begins: &Option<Arc>) -> Option<Arc> {
    match name? {
        Name::OfWord(k, more) => raised(state.word(k as usize).arc, more).or(word()),
        Name::OfBegin(2, more) => raised(*begins, more),
        Name::OfBegin(_, _) => None,
    }
}
