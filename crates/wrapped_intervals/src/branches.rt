//! What a branch says of its registers.

ghost use Rattle.std.specs.Prelude.{◌≡◌, ◌<◌, length, option_map, Some, true};
ghost use Rattle.std.specs.List.{All};
ghost use Rattle.bound_laws.specs.Values as values;
ghost use Rattle.bound_laws.specs.Registers.{keeps, writes};
ghost use Rattle.wrapped_intervals.specs.Small.{IsFoundOr, IsKept, IsKeptOr, row, said_view};

use crate::arcs::Arc;
use crate::results::{held, written};
use crate::views::{first_by, first_range, is_empty, second_by, second_range, view};
use scale_base::{BranchOp, Instr};

/// A comparison of two registers that holds.
#[derive(Clone, Copy)]
pub struct Said {
    pub op: BranchOp,
    pub first: u8,
    pub second: u8,
}

// The comparison that holds where the other doesn't.
fn opposite(op: BranchOp) -> BranchOp
    ensures { result ≡ values.opposite op }
{
    match op {
        BranchOp::Beq => BranchOp::Bne,
        BranchOp::Bne => BranchOp::Beq,
        BranchOp::Blt => BranchOp::Bge,
        BranchOp::Bge => BranchOp::Blt,
        BranchOp::Bltu => BranchOp::Bgeu,
        BranchOp::Bgeu => BranchOp::Bltu,
    }
}

/// What the instruction at an address says on the way to another one. A branch that goes elsewhere than to the next word is taken, and one that
/// goes elsewhere than to its target isn't.
pub fn said_by(i: Instr, pc: u32, next: u32) -> Option<Said>
    ensures { option_map said_view result ≡ values.said i pc next }
{
    match i {
        Instr::Branch {
            op,
            rs1,
            rs2,
            offset,
        } => {
            if next != pc.wrapping_add(4) {
                Some(Said {
                    op,
                    first: rs1,
                    second: rs2,
                })
            } else if next != pc.wrapping_add(offset.cast_unsigned()) {
                Some(Said {
                    op: opposite(op),
                    first: rs1,
                    second: rs2,
                })
            } else {
                None
            }
        }
        _ => None,
    }
}

/// The interval of a register where that holds.
pub fn kept_by(said: Option<Said>, at: &[Option<Arc>], r: u8) -> Option<Arc>
    requires size { length at.now ≡ 32 }
    requires kept { All IsKeptOr at.now }
    requires register { r < 32 }
    ensures arc { result ≡ values.kept_by (option_map said_view said) (row at.now) r }
    ensures found { IsFoundOr result }
{
    match said {
        None => at[usize::from(r)],
        Some(s) => {
            if r == s.first {
                first_by(s.op, held(at, s.first), held(at, s.second))
            } else if r == s.second {
                second_by(s.op, held(at, s.first), held(at, s.second))
            } else {
                at[usize::from(r)]
            }
        }
    }
}

// Whether no words of these intervals compare so.
fn has_none(op: BranchOp, i: Arc, j: Arc) -> bool
    requires i { IsKept i }
    requires j { IsKept j }
    ensures none { result ≡ true → values.HasNone op (Some i) (Some j) }
{
    is_empty(first_range(op, view(op, i), view(op, j)))
        || is_empty(second_range(op, view(op, i), view(op, j)))
}

/// Whether what is said can't be.
pub fn is_impossible(said: Option<Said>, at: &[Option<Arc>]) -> bool
    requires size { length at.now ≡ 32 }
    requires kept { All IsKeptOr at.now }
    ensures none { result ≡ true → values.IsImpossible (option_map said_view said) (row at.now) }
{
    match said {
        None => false,
        Some(s) => match (held(at, s.first), held(at, s.second)) {
            (Some(i), Some(j)) => has_none(s.op, i, j),
            _ => false,
        },
    }
}

// Whether the instruction writes the register.
fn writes(r: u8, i: Instr) -> bool
    ensures { result ≡ writes r i }
{
    match i {
        Instr::Lui { rd, imm: _ } => rd == r,
        Instr::Auipc { rd, imm: _ } => rd == r,
        Instr::Jal { rd, offset: _ } => rd == r,
        Instr::Jalr {
            rd,
            rs1: _,
            offset: _,
        } => rd == r,
        Instr::Load {
            op: _,
            rd,
            rs1: _,
            offset: _,
        } => rd == r,
        Instr::Imm {
            op: _,
            rd,
            rs1: _,
            imm: _,
        } => rd == r,
        Instr::Reg {
            op: _,
            rd,
            rs1: _,
            rs2: _,
        } => rd == r,
        Instr::Fence {
            rd: _,
            rs1: _,
            imm: _,
        } => false,
        Instr::Ecall => 10 == r,
        Instr::Ebreak => false,
        Instr::Branch {
            op: _,
            rs1: _,
            rs2: _,
            offset: _,
        } => false,
        Instr::Store {
            op: _,
            rs1: _,
            rs2: _,
            offset: _,
        } => false,
    }
}

/// Whether the instruction leaves the register as it is.
pub fn keeps(r: u8, i: Instr) -> bool
    ensures { result ≡ keeps r i }
{
    r == 0 || !writes(r, i)
}

/// The interval of a register behind the instruction at an address, on the way to another one.
pub fn passed(i: Instr, pc: u32, next: u32, at: &[Option<Arc>], r: u8) -> Option<Arc>
    requires size { length at.now ≡ 32 }
    requires kept { All IsKeptOr at.now }
    requires register { r < 32 }
    ensures arc { result ≡ values.passed i pc next (row at.now) r }
    ensures found { IsFoundOr result }
{
    if keeps(r, i) {
        kept_by(said_by(i, pc, next), at, r)
    } else {
        written(i, pc, at)
    }
}
