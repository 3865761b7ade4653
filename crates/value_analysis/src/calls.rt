//! What flows into a function, and behind a call.

ghost use Rattle.std.specs.Prelude.{◌<◌};

use crate::apart::{is_below, opposite_of};
use crate::doubts::{Kept, is_kept};
use crate::names::{begun_names, name_of, offset_of};
use crate::passing::Step;
use crate::rows::{passed_row, unknown};
use crate::states::{Facts, State};
use crate::stores::{arc_of, span_of};
use crate::tables::Row;
use scale_base::Instr;
use stack_tables::Name;
use wrapped_intervals::{Arc, keeps, word};

/// What flows into a function by a call. Whether a state goes there.
pub fn enter(step: Step, from: &Facts, to: &mut State) -> bool {
    let Some(row) = passed_row(step.instr, step.at, step.next, &from.row) else {
        return false;
    };
    to.row = row;
    // From where a function is called is of no account.
    to.row[1] = word();
    to.names = begun_names();
    to.spans = unknown();
    to.forget_words();
    to.forget_lines();
    true
}

/// What is known of a function that is called: the row at its returns, the registers that it gives back, and whether it stores nothing to the words of
/// functions that wait.
#[derive(Clone, Copy)]
pub struct Callee<'a> {
    pub exit: &'a Row,
    pub restored: &'a [bool; 32],
    pub sparing: bool,
}

/// A call: its instruction, what is known before it, what x2 has when the function of the call begins, and the number of the first word of that function
/// that calls may store to.
#[derive(Clone, Copy)]
pub struct CallSite<'a> {
    pub instr: Instr,
    pub from: &'a Facts,
    pub begins: Option<Arc>,
    pub limit: usize,
    /// Of the words, those that are kept. All are, where there are none.
    pub kept: Option<&'a Kept>,
}

impl CallSite<'_> {
    // How far x2 is below what it had when the function began.
    fn depth(&self) -> Option<u64> {
        let offset = offset_of(name_of(&self.from.names, 2))?;
        if is_below(self.begins, offset, 0) {
            Some(opposite_of(offset))
        } else {
            None
        }
    }

    /// Whether x2 is not above what it had when the function began.
    pub fn is_descending(&self) -> bool {
        self.depth().is_some()
    }

    /// Whether the words from the first one on up to which x2 is are kept, and how many.
    pub fn kept_words(&self, callee: &Callee<'_>) -> usize {
        match self.depth() {
            Some(depth) if callee.sparing => ((depth / 4) as usize).min(self.limit),
            _ => 0,
        }
    }

    /// Whether a word is one that any call keeps.
    pub fn is_kept(&self, k: usize) -> bool {
        self.kept.is_none() || is_kept(self.kept, k)
    }

    /// Whether the function gives a register back.
    pub fn is_restored(&self, callee: &Callee<'_>, r: u8) -> bool {
        let restored = callee.restored;
        restored.get(usize::from(r)).copied().unwrap_or(false) && keeps(r, self.instr)
    }

    fn arc(&self, callee: &Callee<'_>, r: u8) -> Option<Arc> {
        if self.is_restored(callee, r) {
            arc_of(&self.from.row, r)
        } else {
            arc_of(callee.exit, r)
        }
    }

    // The name of a register that is restored, where the word that it names is kept.
    fn name(&self, callee: &Callee<'_>, r: u8, kept: usize) -> Option<Name> {
        if !self.is_restored(callee, r) {
            return None;
        }
        let name = name_of(&self.from.names, r);
        match name {
            Some(Name::OfWord(k, _)) if k as usize >= kept || !self.is_kept(k as usize) => None,
            _ => name,
        }
    }

    fn span(&self, callee: &Callee<'_>, r: u8) -> Option<Arc> {
        if self.is_restored(callee, r) {
            span_of(&self.from.spans, r)
        } else {
            None
        }
    }
}

/// What flows behind a call.
pub fn come_back(site: &CallSite<'_>, callee: &Callee<'_>, to: &mut State) {
    let kept = site.kept_words(callee);
    for r in 1..32u8 {
        let k = usize::from(r);
        to.row[k] = site.arc(callee, r);
        to.names[k] = site.name(callee, r, kept);
        to.spans[k] = site.span(callee, r);
    }
    to.forget_words();
    for k in 0..kept.min(site.from.words.len()) {
        if site.is_kept(k) {
            to.set_word(k, site.from.word(k));
        }
    }
}
