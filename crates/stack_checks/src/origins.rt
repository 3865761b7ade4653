//! Where what an instruction leaves in a register or in a word of the stack comes from.

ghost use Rattle.std.specs.Prelude.{ℕ};
ghost use Rattle.stack_laws.specs.Stacks.{Stacks};
ghost use Rattle.stack_checks.specs.Checked.{IsOrigin, IsOriginOf, IsSourceOf, IsWay};

use crate::ways::Way;
use scale_base::{ImmOp, Instr, RegOp};
use stack_tables::{is_missed, loaded_to, stored_from};
use wrapped_intervals::keeps;

/// Of a register: it is left, it is so much more than another one, the sum of two, or a word of the stack.
#[derive(Clone, Copy)]
pub enum Origin {
    Left,
    Plus(u8, u32),
    Sum(u8, u8),
    Loaded(u32),
    Other,
}

/// Of a word: the instruction misses it, or stores a register there.
#[derive(Clone, Copy)]
pub enum Source {
    Missed,
    Stored(u8),
    Unknown,
}

// What an instruction adds, where it writes a sum to a register.
fn sum_origin(i: Instr, r: u8) -> Origin
    ensures { (w : Stacks) → (a : ℕ) → IsOrigin w a i r result }
{
    match i {
        Instr::Imm {
            op: ImmOp::Addi,
            rd,
            rs1,
            imm,
        } => {
            if rd == r {
                Origin::Plus(rs1, imm.cast_unsigned())
            } else {
                Origin::Other
            }
        }
        Instr::Reg {
            op: RegOp::Add,
            rd,
            rs1,
            rs2,
        } => {
            if rd == r {
                Origin::Sum(rs1, rs2)
            } else {
                Origin::Other
            }
        }
        _ => Origin::Other,
    }
}

// What it writes to a register.
fn written_origin(way: &Way<'_>, r: u8) -> Origin
    requires { IsWay way.now }
    ensures { IsOriginOf way.now r result }
{
    match loaded_to(way.claim, way.instr, way.from) {
        Some((number, rd)) => {
            if rd == r {
                Origin::Loaded(number)
            } else {
                Origin::Other
            }
        }
        None => sum_origin(way.instr, r),
    }
}

/// Where what it leaves in a register comes from.
pub fn origin_of(way: &Way<'_>, r: u8) -> Origin
    requires { IsWay way.now }
    ensures { IsOriginOf way.now r result }
{
    if keeps(r, way.instr) {
        Origin::Left
    } else {
        written_origin(way, r)
    }
}

// Whether it misses a word.
fn missed_source(way: &Way<'_>, j: u32) -> Source
    requires { IsWay way.now }
    ensures { IsSourceOf way.now j result }
{
    if is_missed(way.claim, way.instr, way.from, j) {
        Source::Missed
    } else {
        Source::Unknown
    }
}

/// Where what it leaves in a word comes from.
pub fn source_of(way: &Way<'_>, j: u32) -> Source
    requires { IsWay way.now }
    ensures { IsSourceOf way.now j result }
{
    match stored_from(way.claim, way.instr, way.from) {
        Some((number, r)) => {
            if number == j {
                Source::Stored(r)
            } else {
                missed_source(way, j)
            }
        }
        None => missed_source(way, j),
    }
}
