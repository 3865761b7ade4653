//! Sums and differences of two registers.

ghost use Rattle.std.specs.Prelude.{◌≡◌, ◌<◌, ◌^◌, ◌%◌, ◌==◌, ◌&&◌, length, option_map, option_and_then, Some, IfSome, is_some, true};
ghost use Rattle.std.specs.List.{All};
ghost use Rattle.bound_laws.specs.Values as values;
ghost use Rattle.bound_laws.specs.Registers as registers;
ghost use Rattle.wrapped_intervals.specs.Small.{IsFoundOr, IsKeptOr, line_by, measure_view, row, said_view};

use crate::arcs::{Arc, WORDS};
use crate::branches::{Said, keeps};
use crate::results::held;
use crate::sums::{negated, opposite_of, scaled, sum_of, sum_with};
use crate::views::difference_by;
use scale_base::{BranchOp, ImmOp, Instr};

/// A number that goes with two registers: a sum of multiples of them and of a shift, modulo 2^32, where the factor 2^32 - 1 stands for -1.
#[derive(Clone, Copy, PartialEq, Eq)]
pub struct Measure {
    pub register: u8,
    pub factor: u32,
    pub other: u8,
    pub other_factor: u32,
    pub shift: u32,
}

// What an instruction adds to a multiple of a register that it writes, where that is known.
fn added(r: u8, factor: u32, i: Instr) -> Option<u32>
    ensures { result ≡ registers.added r factor i }
{
    match i {
        Instr::Imm {
            op: ImmOp::Addi,
            rd,
            rs1,
            imm,
        } => {
            if rd == r && rs1 == r {
                Some(factor.wrapping_mul(imm.cast_unsigned()))
            } else {
                None
            }
        }
        _ => None,
    }
}

/// What an instruction adds to a measure, modulo 2^32, where that is known.
pub fn effect(m: Measure, i: Instr) -> Option<u32>
    ensures { result ≡ registers.effect (measure_view m) i }
{
    let first = keeps(m.register, i);
    let second = keeps(m.other, i);
    if first && second {
        Some(0)
    } else if second {
        added(m.register, m.factor, i)
    } else if first {
        added(m.other, m.other_factor, i)
    } else {
        None
    }
}

/// The interval of a measure, by those of its two registers.
pub fn line_by(m: Measure, first: Option<Arc>, other: Option<Arc>) -> Option<Arc>
    requires first { IsKeptOr first }
    requires other { IsKeptOr other }
    ensures line { result ≡ line_by (measure_view m) first other }
    ensures found { IsFoundOr result }
{
    let first = scaled(u64::from(m.factor), first);
    let second = scaled(u64::from(m.other_factor), other);
    sum_with(sum_of(first, second), u64::from(m.shift))
}

/// The same, by the intervals of all registers.
pub fn line_of(m: Measure, at: &[Option<Arc>]) -> Option<Arc>
    requires size { length at.now ≡ 32 }
    requires kept { All IsKeptOr at.now }
    ensures line { result ≡ values.line_of (measure_view m) (row at.now) }
    ensures found { IsFoundOr result }
{
    line_by(m, held(at, m.register), held(at, m.other))
}

/// The interval of a register by that of a line of it with the factor 1, and of the line's other register.
pub fn solved(m: Measure, line: Option<Arc>, other: Option<Arc>) -> Option<Arc>
    requires line { IsFoundOr line }
    requires other { IsKeptOr other }
    ensures solved { result ≡ values.solved (measure_view m) line other }
    ensures found { IsFoundOr result }
{
    let rest = scaled(opposite_of(u64::from(m.other_factor)), other);
    sum_with(sum_of(line, rest), opposite_of(u64::from(m.shift)))
}

// Whether the comparison says that the registers differ.
fn differs(op: BranchOp) -> bool
    ensures { result ≡ values.differs op }
{
    match op {
        BranchOp::Bne | BranchOp::Blt | BranchOp::Bltu => true,
        BranchOp::Beq | BranchOp::Bge | BranchOp::Bgeu => false,
    }
}

/// Whether a measure is a difference of the registers that are compared, both words, and of a shift.
pub fn is_difference(said: Option<Said>, m: Measure, at: &[Option<Arc>]) -> bool
    requires size { length at.now ≡ 32 }
    requires kept { All IsKeptOr at.now }
    ensures { result ≡ values.is_difference (option_map said_view said) (measure_view m) (row at.now) }
{
    match said {
        None => false,
        Some(s) => {
            differs(s.op)
                && held(at, m.register).is_some()
                && held(at, m.other).is_some()
                && ((m.register == s.first && m.other == s.second)
                    || (m.register == s.second && m.other == s.first))
                && ((m.factor == 1 && m.other_factor == 4_294_967_295)
                    || (m.factor == 4_294_967_295 && m.other_factor == 1))
        }
    }
}

// Whether a measure is the first register less the second one, and its shift.
fn is_minus(m: Measure, first: u8, second: u8) -> bool
    ensures { result ≡ values.is_minus (measure_view m) first second }
{
    m.register == first && m.factor == 1 && (m.other == second && m.other_factor == 4_294_967_295)
}

// The number below 0 in place of the one above, modulo 2^32.
fn turned(d: Option<Arc>) -> Option<Arc>
    requires { IsFoundOr d }
    ensures turned { result ≡ option_map values.negated d }
    ensures found { IsFoundOr result }
{
    match d {
        Some(d) => Some(negated(d)),
        None => None,
    }
}

// What a comparison says of a measure.
fn compared_by(s: Said, m: Measure, at: &[Option<Arc>]) -> Option<Arc>
    requires size { length at.now ≡ 32 }
    requires kept { All IsKeptOr at.now }
    ensures compared { result ≡ values.compared (Some (said_view s)) (measure_view m) (row at.now) }
    ensures found { IsFoundOr result }
{
    let difference = difference_by(s.op, held(at, s.first), held(at, s.second));
    if is_minus(m, s.first, s.second) {
        sum_with(difference, u64::from(m.shift))
    } else if is_minus(m, s.second, s.first) {
        sum_with(turned(difference), u64::from(m.shift))
    } else {
        None
    }
}

/// What a comparison says of a measure that is a difference of its registers and a shift.
pub fn compared(said: Option<Said>, m: Measure, at: &[Option<Arc>]) -> Option<Arc>
    requires size { length at.now ≡ 32 }
    requires kept { All IsKeptOr at.now }
    ensures compared { result ≡ values.compared (option_map said_view said) (measure_view m) (row at.now) }
    ensures found { IsFoundOr result }
{
    match said {
        Some(s) => compared_by(s, m, at),
        None => None,
    }
}
