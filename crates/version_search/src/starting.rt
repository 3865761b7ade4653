//! Whether a loop's counter starts as far from its end at each entry: then its turns don't vary.

use crate::code::Code;
use crate::counting::{Range, written_by};
use crate::entering::Entry;
use scale_base::{ImmOp, Instr, RegOp};

/// As many words in front of a header are looked at.
const MOST_WORDS: usize = 32;

/// The number of the service that reads, and the register of a service's number.
const READ: u32 = 63;

const SERVICE: u8 = 17;

/// Stands for no register.
const UNKNOWN: u8 = 255;

/// By register, what it holds: a number more than what a register held at first.
#[derive(Drop)]
pub struct Values {
    bases: [u8; 32],
    more: [u32; 32],
}

impl Values {
    fn new() -> Values {
        let mut values = Values {
            bases: [0; 32],
            more: [0; 32],
        };
        for r in 0..32u8 {
            values.bases[usize::from(r)] = r;
        }
        values
    }

    fn base(&self, r: u8) -> u8 {
        self.bases.get(usize::from(r)).copied().unwrap_or(UNKNOWN)
    }

    fn more(&self, r: u8) -> u32 {
        self.more.get(usize::from(r)).copied().unwrap_or(0)
    }

    fn put(&mut self, r: u8, base: u8, more: u32) {
        let r = usize::from(r);
        if r > 0 && r < 32 {
            self.bases[r] = base;
            self.more[r] = more;
        }
    }

    fn run(&mut self, instr: Instr) {
        match instr {
            Instr::Imm {
                op: ImmOp::Addi,
                rd,
                rs1,
                imm,
            } => self.put(
                rd,
                self.base(rs1),
                self.more(rs1).wrapping_add(imm.cast_unsigned()),
            ),
            Instr::Reg {
                op: RegOp::Add,
                rd,
                rs1,
                rs2: 0,
            } => self.put(rd, self.base(rs1), self.more(rs1)),
            Instr::Lui { rd, imm } => self.put(rd, 0, imm),
            _ => self.put(written_by(instr), UNKNOWN, 0),
        }
    }

    /// The number that a register holds, where that is known.
    pub fn constant(&self, r: u8) -> Option<u32> {
        if self.base(r) == 0 {
            Some(self.more(r))
        } else {
            None
        }
    }

    fn has_constant(&self, range: Range) -> bool {
        let base = self.base(range.larger);
        base != UNKNOWN && base == self.base(range.smaller)
    }
}

/// What registers hold before a word, by the words in front of it.
pub fn values_before(code: &Code<'_>, k: usize) -> Values {
    let mut first = k;
    for _ in 0..MOST_WORDS {
        match code.before(first) {
            Some(before) => first = before,
            None => break,
        }
    }
    let mut values = Values::new();
    for j in first..k {
        values.run(code.instr(j));
    }
    values
}

/// Whether a node asks the service that reads.
pub fn is_read(code: &Code<'_>, k: usize) -> bool {
    matches!(code.instr(k), Instr::Ecall) && values_before(code, k).constant(SERVICE) == Some(READ)
}

// Whether the words in front of a header say how far the counter is from its end.
fn is_constant(code: &Code<'_>, entry: &Entry, range: Range) -> bool {
    let Some(last) = code.find(entry.at) else {
        return false;
    };
    let mut values = values_before(code, last);
    values.run(code.instr(last));
    values.has_constant(range)
}

/// Whether a loop may turn more often at one entry than at another.
pub fn may_vary(code: &Code<'_>, entries: &[Entry], range: Range) -> bool {
    entries.iter().any(|entry| !is_constant(code, entry, range))
}
