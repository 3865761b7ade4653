//! Which registers a loop counts in, by its tests of whether it goes on.

ghost use Rattle.std.specs.Prelude.{◌<◌};

use crate::code::Code;
use crate::functions::Functions;
use scale_base::{ImmOp, Instr, NoMemory};
use std::alloc::Global;

/// As many tests of a loop are looked at.
const MOST_TESTS: usize = 4;

/// Two registers whose difference becomes less with each turn, and by how much.
#[derive(Clone, Copy, PartialEq, Eq)]
pub struct Range {
    pub larger: u8,
    pub smaller: u8,
    pub step: u32,
}

/// By register, what a turn adds to it, whether the loop writes it, and whether it does so in another way than by adding a number, all of one sign.
#[derive(Drop)]
struct Registers {
    steps: [i32; 32],
    written: [bool; 32],
    lost: [bool; 32],
}

/// The register that an instruction writes. A service's result is in x10.
pub fn written_by(instr: Instr) -> u8 {
    match instr {
        Instr::Lui { rd, .. }
        | Instr::Auipc { rd, .. }
        | Instr::Jal { rd, .. }
        | Instr::Jalr { rd, .. }
        | Instr::Load { rd, .. }
        | Instr::Imm { rd, .. }
        | Instr::Reg { rd, .. } => rd,
        Instr::Ecall => 10,
        _ => 0,
    }
}

// What an instruction adds to the register that it writes; 0 where it does something else.
fn added_by(instr: Instr) -> i32 {
    match instr {
        Instr::Imm {
            op: ImmOp::Addi,
            rd,
            rs1,
            imm,
        } if rd == rs1 => imm,
        _ => 0,
    }
}

impl Registers {
    fn new() -> Registers {
        Registers {
            steps: [0; 32],
            written: [false; 32],
            lost: [false; 32],
        }
    }

    // Notes an instruction, which each turn comes to once at most or maybe more often.
    fn note(&mut self, instr: Instr, once: bool) {
        let r = usize::from(written_by(instr));
        if r == 0 || r >= 32 {
            return;
        }
        let more = added_by(instr);
        let before = self.steps[r];
        self.written[r] = true;
        if !once || more == 0 || (before < 0 && more > 0) || (before > 0 && more < 0) {
            self.lost[r] = true;
        }
        self.steps[r] = before.saturating_add(more);
    }

    // Notes the registers that a call may change.
    fn note_call(&mut self, changed: u32) {
        for r in 1..32u8 {
            if changed.wrapping_shr(u32::from(r)) & 1 == 1 {
                self.written[usize::from(r)] = true;
                self.lost[usize::from(r)] = true;
            }
        }
    }

    // What a turn adds to a register in which the loop counts.
    fn step(&self, r: u8) -> Option<i32> {
        let r = usize::from(r);
        if r == 0 || r >= 32 || self.lost[r] || self.steps[r] == 0 {
            return None;
        }
        Some(self.steps[r])
    }

    // Whether the loop doesn't write a register.
    fn is_fixed(&self, r: u8) -> bool {
        let r = usize::from(r);
        r < 32 && !self.written[r]
    }

    // The range from a counter to a register that the loop doesn't write. A guard changes neither x0, the return address nor the stack pointer.
    fn range(&self, counter: u8, other: u8) -> Option<Range> {
        let step = self.step(counter)?;
        if !self.is_fixed(other) {
            return None;
        }
        let (larger, smaller) = if step > 0 {
            (other, counter)
        } else {
            (counter, other)
        };
        if larger < 3 {
            return None;
        }
        Some(Range {
            larger,
            smaller,
            step: step.unsigned_abs(),
        })
    }
}

// What the instructions of a loop do to registers.
fn registers_of(code: &Code<'_>, functions: &Functions, l: usize) -> Registers {
    let mut registers = Registers::new();
    for k in code.body(l) {
        if code.callee(*k).is_some() {
            registers.note_call(functions.written_at(code, *k));
        } else {
            registers.note(code.instr(*k), code.is_outermost(l, *k));
        }
    }
    registers
}

// The range that a test of a loop compares.
fn tested(code: &Code<'_>, l: usize, registers: &Registers, k: usize) -> Option<Range> {
    let Instr::Branch { rs1, rs2, .. } = code.instr(k) else {
        return None;
    };
    if !code.leaves_by_one(l, k) {
        return None;
    }
    match registers.range(rs1, rs2) {
        Some(range) => Some(range),
        None => registers.range(rs2, rs1),
    }
}

fn is_among(ranges: &[Range], range: Range) -> bool {
    ranges.iter().any(|other| *other == range)
}

/// The ranges that a loop's tests compare.
pub fn ranges_of(
    alloc: Global,
    code: &Code<'_>,
    functions: &Functions,
    l: usize,
) -> Result<Vec<Range>, NoMemory> {
    let registers = registers_of(code, functions, l);
    let mut ranges = Vec::new(alloc);
    for k in code.body(l) {
        if let Some(range) = tested(code, l, &registers, *k) {
            if ranges.len() < MOST_TESTS && !is_among(&ranges, range) {
                ranges.push(range)?;
            }
        }
    }
    Ok(ranges)
}
