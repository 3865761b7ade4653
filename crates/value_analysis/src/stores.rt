//! What instructions store to, and what they load.

use crate::apart::{are_apart, are_below, is_below, opposite_of, raised};
use crate::arcs::{WORDS, ahead, kept, only};
use crate::names::{Names, name_of, offset_of};
use crate::tables::Row;
use scale_base::{Instr, LoadOp, StoreOp};
use stack_tables::word_number;
use wrapped_intervals::{Arc, exactly, held, top_of};

/// The number of the read service.
const READ: u64 = 63;

/// How many bytes it stores at most.
const MOST_READ: u64 = 256;

/// Of a store in an interval that is as long as this nothing is known.
const LONG: u64 = 4_096;

/// Where an instruction stores: how far above the function's first x2, where that is known, or within which interval; at which addresses; and how many
/// bytes at most.
#[derive(Clone, Copy)]
pub struct Target {
    offset: Option<u32>,
    span: Option<Arc>,
    arc: Option<Arc>,
    most: u64,
}

fn store_width(op: StoreOp) -> u64 {
    match op {
        StoreOp::Sb => 1,
        StoreOp::Sh => 2,
        StoreOp::Sw => 4,
    }
}

/// How far above the function's first x2 a register is.
pub fn span_of(spans: &Row, r: u8) -> Option<Arc> {
    if r == 0 {
        None
    } else {
        spans.get(usize::from(r)).copied().flatten()
    }
}

/// The interval of a register; x0 is 0.
pub fn arc_of(row: &Row, r: u8) -> Option<Arc> {
    if r == 0 {
        exactly(0)
    } else {
        row.get(usize::from(r)).copied().flatten()
    }
}

// How far above the function's first x2 an address is.
fn address_offset(names: &Names, r: u8, offset: i32) -> Option<u32> {
    Some(offset_of(name_of(names, r))?.wrapping_add(offset.cast_unsigned()))
}

// Whether a number is not in an interval.
fn has_not(arc: Option<Arc>, n: u64) -> bool {
    match arc {
        Some(i) => i.more() < ahead(i.low(), n),
        None => false,
    }
}

// Where a service stores.
fn service_target(row: &Row, spans: &Row) -> Option<Target> {
    if has_not(arc_of(row, 17), READ) {
        return None;
    }
    let arc = arc_of(row, 11);
    Some(Target {
        offset: None,
        span: if arc.is_some() {
            span_of(spans, 11)
        } else {
            None
        },
        arc,
        most: top_of(kept(arc_of(row, 12))).min(MOST_READ),
    })
}

/// Where an instruction stores, if it does.
pub fn target_of(i: Instr, row: &Row, names: &Names, spans: &Row) -> Option<Target> {
    match i {
        Instr::Store {
            op,
            rs1,
            rs2: _,
            offset,
        } => Some(Target {
            offset: address_offset(names, rs1, offset),
            span: raised(span_of(spans, rs1), offset.cast_unsigned()),
            arc: raised(arc_of(row, rs1), offset.cast_unsigned()),
            most: store_width(op),
        }),
        Instr::Ecall => service_target(row, spans),
        _ => None,
    }
}

/// The addresses of the first byte that an instruction stores, where they are known, and how many bytes it stores at most.
#[derive(Clone, Copy)]
pub struct Reach {
    pub arc: Option<Arc>,
    pub most: u64,
}

// Where the read service stores.
fn read_reach(row: &Row) -> Option<Reach> {
    if has_not(arc_of(row, 17), READ) {
        return None;
    }
    Some(Reach {
        arc: kept(arc_of(row, 11)),
        most: top_of(kept(arc_of(row, 12))).min(MOST_READ),
    })
}

/// Where an instruction stores by the intervals of registers, if it does.
pub fn reach_of(i: Instr, row: &Row) -> Option<Reach> {
    match i {
        Instr::Store {
            op,
            rs1,
            offset,
            ..
        } => Some(Reach {
            arc: raised(arc_of(row, rs1), offset.cast_unsigned()),
            most: store_width(op),
        }),
        Instr::Ecall => read_reach(row),
        _ => None,
    }
}

/// How far above its function's first x2 a word is.
pub fn word_offset(k: usize) -> u32 {
    let below = (k as u64).saturating_add(1).saturating_mul(4) % WORDS;
    (below as u32).wrapping_neg()
}

// Whether none of so many bytes from an address on is one of the four from the other on.
fn is_apart(at: u32, width: u64, other: u32) -> bool {
    width <= u64::from(other.wrapping_sub(at)) && at.wrapping_sub(other) >= 4
}

// How far above a number that x2 had when the function began an interval is, where that is one number.
fn above(arc: Option<Arc>, begins: &Option<Arc>) -> Option<Arc> {
    raised(arc, only(*begins)?.wrapping_neg())
}

/// How far above the function's first x2 the register points by which an instruction stores, by its interval, where the register's span isn't known.
pub fn span_by_interval(
    i: Instr,
    row: &Row,
    spans: &Row,
    begins: &Option<Arc>,
) -> Option<(u8, Arc)> {
    let r = match i {
        Instr::Store { rs1, .. } => rs1,
        Instr::Ecall => 11,
        _ => return None,
    };
    if r == 0 || span_of(spans, r).is_some() {
        return None;
    }
    Some((r, above(arc_of(row, r), begins)?))
}

impl Target {
    /// The same with its span by its addresses, where that isn't known.
    pub fn spanned(self, begins: &Option<Arc>) -> Target {
        Target {
            span: self.span.or(above(self.arc, begins)),
            ..self
        }
    }

    /// Whether it misses a word of the function's own stack.
    pub fn misses(&self, begins: &Option<Arc>, k: usize) -> bool {
        let word = word_offset(k);
        if let Some(offset) = self.offset {
            if is_apart(offset, self.most, word) {
                return true;
            }
        }
        are_apart(self.span, self.most, exactly(u64::from(word)))
            || self.is_apart(raised(*begins, word))
    }

    /// Whether its addresses miss words at these.
    pub fn is_apart(&self, words: Option<Arc>) -> bool {
        are_apart(self.arc, self.most, words)
    }

    /// Whether nothing is known of where it is: it isn't so far above the function's first x2, nor within a short interval.
    pub fn is_unknown(&self) -> bool {
        let is_span_long = match self.span {
            Some(span) => span.more() >= LONG,
            None => true,
        };
        self.offset.is_none() && is_span_long && !self.is_shorter(LONG)
    }

    /// Whether its addresses are in an interval that is shorter.
    pub fn is_shorter(&self, length: u64) -> bool {
        match self.arc {
            Some(arc) => arc.more() < length,
            None => false,
        }
    }

    /// Whether it misses the words of functions that wait, which are at these addresses.
    pub fn spares(&self, begins: &Option<Arc>, place: &Option<Arc>) -> bool {
        if let Some(offset) = self.offset {
            if is_below(*begins, offset, self.most) {
                return true;
            }
        }
        self.is_apart(*place) || are_below(*begins, self.span, self.most)
    }
}

/// The word that an instruction stores, and the register that it has the word from.
pub fn stored_word(i: Instr, names: &Names) -> Option<(usize, u8)> {
    match i {
        Instr::Store {
            op: StoreOp::Sw,
            rs1,
            rs2,
            offset,
        } => {
            let word = word_number(address_offset(names, rs1, offset)?)?;
            Some((word as usize, rs2))
        }
        _ => None,
    }
}

/// The word that an instruction loads.
pub fn loaded_word(i: Instr, names: &Names) -> Option<usize> {
    match i {
        Instr::Load {
            op: LoadOp::Lw,
            rd: _,
            rs1,
            offset,
        } => {
            let word = word_number(address_offset(names, rs1, offset)?)?;
            Some(word as usize)
        }
        _ => None,
    }
}
