//! What a sum of two registers is before an instruction, as a sum.

use scale_base::{ImmOp, Instr, RegOp};
use wrapped_intervals::Measure;

/// The same sum, the other way round.
pub fn turned(m: Measure) -> Measure {
    Measure {
        register: m.other,
        factor: m.other_factor,
        other: m.register,
        other_factor: m.factor,
        shift: m.shift,
    }
}

// One register, so many times, and a number.
fn single(register: u8, factor: u32, shift: u32) -> Measure {
    Measure {
        register,
        factor,
        other: 0,
        other_factor: 0,
        shift,
    }
}

// What a measure is whose first register is another one, and a number.
fn replaced(m: Measure, rs: u8, imm: u32) -> Measure {
    let shift = m.shift.wrapping_add(m.factor.wrapping_mul(imm));
    if m.other == rs {
        single(rs, m.factor.wrapping_add(m.other_factor), shift)
    } else {
        Measure {
            register: rs,
            shift,
            ..m
        }
    }
}

// The same, where its first register is a sum of two, of which it has one as often away.
fn summed(m: Measure, rs1: u8, rs2: u8) -> Option<Measure> {
    if m.factor.wrapping_add(m.other_factor) != 0 {
        None
    } else if m.other == rs1 {
        Some(single(rs2, m.factor, m.shift))
    } else if m.other == rs2 {
        Some(single(rs1, m.factor, m.shift))
    } else {
        None
    }
}

// What a measure is before an instruction that writes its first register, and not the other one.
fn first_before(m: Measure, i: Instr) -> Option<Measure> {
    match i {
        Instr::Imm {
            op: ImmOp::Addi,
            rd,
            rs1,
            imm,
        } if rd == m.register && rd != m.other => Some(replaced(m, rs1, imm.cast_unsigned())),
        Instr::Reg {
            op: RegOp::Add,
            rd,
            rs1,
            rs2,
        } if rd == m.register && rd != m.other => summed(m, rs1, rs2),
        _ => None,
    }
}

/// What a measure is before an instruction that writes one of its registers, as a measure, where that is known.
pub fn before(m: Measure, i: Instr) -> Option<Measure> {
    match first_before(m, i) {
        Some(first) => Some(first),
        None => Some(turned(first_before(turned(m), i)?)),
    }
}
