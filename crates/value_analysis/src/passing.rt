//! What an instruction that is no call leaves in registers and words.

ghost use Rattle.std.specs.Prelude.{◌≡◌, ◌<◌};

use crate::apart::{raised, summed};
use crate::arcs::{only, shorter};
use crate::areas::{Access, access_of};
use crate::doubts::{Kept, is_kept};
use crate::names::{begun_name, name_of, offset_of, raised_name};
use crate::rows::{passed_row, passed_word};
use crate::states::{Facts, State, UNKNOWN_WORD};
use crate::stores::{Target, arc_of, loaded_word, span_of, stored_word, target_of};
use scale_base::{ImmOp, Instr, RegOp};
use stack_tables::{Name, Word};
use wrapped_intervals::{Arc, keeps};

/// An instruction at an address, on the way to another one.
#[derive(Clone, Copy)]
pub struct Step {
    pub instr: Instr,
    pub at: u32,
    pub next: u32,
}

// A step from a node: what is known there, where it stores, which words are kept that stores of which nothing is known are taken to miss, where they are, and the word
// and the register if it stores one.
#[derive(Clone, Copy)]
struct Passing<'a> {
    step: Step,
    from: &'a Facts,
    begins: Option<Arc>,
    target: Option<Target>,
    kept: Option<&'a Kept>,
    stored: Option<(usize, u8)>,
}

/// Whether functions may have to give a register back as they found it: x1 to x4, x8, x9 and x18 to x27 (RISC-V ABIs Specification, Integer Register
/// Convention). Others are loaded for what the word holds.
pub fn is_restorable(r: u8) -> bool {
    r < 5 || r == 8 || r == 9 || (18..28).contains(&r)
}

impl Passing<'_> {
    // Whether a store is taken to miss the word.
    fn is_doubted(&self, target: &Target, k: usize) -> bool {
        let may_doubt = match self.kept {
            Some(kept) => kept.may_doubt(self.step.instr),
            None => false,
        };
        may_doubt && target.is_unknown() && is_kept(self.kept, k)
    }

    // Whether the word is not stored to.
    fn misses(&self, k: usize) -> bool {
        match self.target {
            Some(target) => { target.misses(&self.begins, k) || self.is_doubted(&target, k) }
            None => true,
        }
    }

    // The name of a register that is left.
    fn kept_name(&self, r: u8) -> Option<Name> {
        let name = name_of(&self.from.names, r);
        match name {
            Some(Name::OfBegin(_, _)) => name,
            Some(Name::OfWord(k, _)) if self.misses(k as usize) => name,
            _ => self.name_of_stored(r),
        }
    }

    // The name of a register that is stored.
    fn name_of_stored(&self, r: u8) -> Option<Name> {
        let (k, source) = self.stored?;
        if source == r && arc_of(&self.from.row, r).is_some() {
            Some(Name::OfWord(u32::try_from(k).ok()?, 0))
        } else {
            None
        }
    }

    // The name of a sum of registers.
    fn added_name(&self, rs1: u8, rs2: u8) -> Option<Name> {
        let names = &self.from.names;
        if let Some(n) = only(arc_of(&self.from.row, rs2)) {
            if let Some(name) = name_of(names, rs1) {
                return raised_name(Some(name), n);
            }
        }
        raised_name(name_of(names, rs2), only(arc_of(&self.from.row, rs1))?)
    }

    // The name of a word that is loaded to a register: what is restored, and what points into the stack, has the name that the word has.
    fn loaded_name(&self, rd: u8) -> Option<Name> {
        let k = loaded_word(self.step.instr, &self.from.names)?;
        let name = self.from.word(k).name;
        if offset_of(name).is_some() || (name == begun_name(rd) && is_restorable(rd)) {
            return name;
        }
        Some(Name::OfWord(u32::try_from(k).ok()?, 0))
    }

    // The name of what is written.
    fn written_name(&self) -> Option<Name> {
        match self.step.instr {
            Instr::Imm {
                op: ImmOp::Addi,
                rd: _,
                rs1,
                imm,
            } => raised_name(name_of(&self.from.names, rs1), imm.cast_unsigned()),
            Instr::Reg {
                op: RegOp::Add,
                rd: _,
                rs1,
                rs2,
            } => self.added_name(rs1, rs2),
            Instr::Load {
                op: _,
                rd,
                rs1: _,
                offset: _,
            } => self.loaded_name(rd),
            _ => None,
        }
    }

    fn name(&self, r: u8) -> Option<Name> {
        if keeps(r, self.step.instr) {
            self.kept_name(r)
        } else {
            self.written_name()
        }
    }

    // The span of a sum of registers.
    fn added_span(&self, rs1: u8, rs2: u8) -> Option<Arc> {
        let from = self.from;
        shorter(
            summed(span_of(&from.spans, rs1), arc_of(&from.row, rs2)),
            summed(span_of(&from.spans, rs2), arc_of(&from.row, rs1)),
        )
    }

    // The span of what is written.
    fn written_span(&self) -> Option<Arc> {
        match self.step.instr {
            Instr::Imm {
                op: ImmOp::Addi,
                rd: _,
                rs1,
                imm,
            } => raised(span_of(&self.from.spans, rs1), imm.cast_unsigned()),
            Instr::Reg {
                op: RegOp::Add,
                rd: _,
                rs1,
                rs2,
            } => self.added_span(rs1, rs2),
            Instr::Load {
                op: _,
                rd: _,
                rs1: _,
                offset: _,
            } => {
                let k = loaded_word(self.step.instr, &self.from.names)?;
                self.from.word(k).span
            }
            _ => None,
        }
    }

    fn span(&self, r: u8) -> Option<Arc> {
        if keeps(r, self.step.instr) {
            span_of(&self.from.spans, r)
        } else {
            self.written_span()
        }
    }

    // The word of a register that is stored. The name of another word is not kept.
    fn word_of(&self, r: u8) -> Word {
        let name = match name_of(&self.from.names, r) {
            Some(Name::OfBegin(begun, more)) => Some(Name::OfBegin(begun, more)),
            _ => None,
        };
        Word {
            arc: arc_of(&self.from.row, r),
            name,
            span: span_of(&self.from.spans, r),
        }
    }

    fn word(&self, k: usize) -> Word {
        match self.stored {
            Some((stored, r)) if stored == k => self.word_of(r),
            _ => {
                if self.misses(k) {
                    self.from.word(k)
                } else {
                    UNKNOWN_WORD
                }
            }
        }
    }

    // Puts what is known of words behind the step.
    fn put_words(&self, to: &mut State) {
        to.forget_words();
        for k in 0..self.from.words.len() {
            to.set_word(k, self.word(k));
        }
        if let Some((k, r)) = self.stored {
            to.set_word(k, self.word_of(r));
        }
    }

    // Takes what an interval says of a register that is left, for the word from which its value comes.
    fn tie_word(&self, r: u8, arc: Option<Arc>, to: &mut State) {
        let Some(Name::OfWord(k, more)) = name_of(&self.from.names, r) else {
            return;
        };
        let k = k as usize;
        if self.misses(k) {
            let mut word = to.word(k);
            word.arc = shorter(raised(arc, more.wrapping_neg()), word.arc);
            to.set_word(k, word);
        }
    }

    // Takes what an access says of its register, and of the word from which the register's value comes.
    fn cut(&self, access: Access, areas: &[Arc], to: &mut State) {
        let arc = access.held(areas, &self.from.row);
        let r = usize::from(access.register);
        if 0 < r && r < 32 && arc.is_some() {
            if keeps(access.register, self.step.instr) {
                to.row[r] = shorter(arc, to.row[r]);
            }
            self.tie_word(access.register, arc, to);
        }
    }

    // Takes what a branch says of a register, whose value comes from a word, for the word too.
    fn tie(&self, r: u8, to: &mut State) {
        let Some(Name::OfWord(k, more)) = name_of(&self.from.names, r) else {
            return;
        };
        let k = k as usize;
        if keeps(r, self.step.instr) && self.misses(k) {
            let step = self.step;
            let arc = passed_word(step.instr, step.at, step.next, &self.from.row, r);
            let mut word = to.word(k);
            word.arc = shorter(word.arc, raised(arc, more.wrapping_neg()));
            to.set_word(k, word);
        }
    }
}

/// Of the function of a node: what x2 has when it begins, and which words are kept that stores of which nothing is known are taken to miss, where they are.
#[derive(Clone, Copy)]
pub struct Frame<'a> {
    pub begins: Option<Arc>,
    pub kept: Option<&'a Kept>,
}

/// What an instruction that is no call leaves on the way to an address, with where loads and stores may be. Whether a state goes there.
pub fn pass(step: Step, from: &Facts, frame: Frame<'_>, areas: &[Arc], to: &mut State) -> bool {
    let Some(row) = passed_row(step.instr, step.at, step.next, &from.row) else {
        return false;
    };
    let passing = Passing {
        step,
        from,
        begins: frame.begins,
        kept: frame.kept,
        target: target_of(step.instr, &from.row, &from.names, &from.spans),
        stored: stored_word(step.instr, &from.names),
    };
    to.row = row;
    to.forget_lines();
    for r in 1..32u8 {
        let k = usize::from(r);
        to.names[k] = passing.name(r);
        to.spans[k] = passing.span(r);
    }
    passing.put_words(to);
    if let Some(access) = access_of(step.instr) {
        passing.cut(access, areas, to);
    }
    if let Instr::Branch {
        op: _,
        rs1,
        rs2,
        offset: _,
    } = step.instr
    {
        passing.tie(rs1, to);
        passing.tie(rs2, to);
    }
    true
}
