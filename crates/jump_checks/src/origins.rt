//! How an instruction may leave a word of a table in a register.

ghost use Rattle.jump_checks.specs.Origins.{IsOrigin};

use scale_base::{Instr, LoadOp, RegOp};

/// A word is loaded by a register and so much more, modulo 2^32, or it is the sum of two registers.
#[derive(Clone, Copy)]
pub enum Origin {
    Loaded(u8, u32),
    Sum(u8, u8),
    Other,
}

/// What an instruction leaves in a register, where it is one of both.
pub fn origin_of(i: Instr, r: u8) -> Origin
    ensures { IsOrigin i r result }
{
    match i {
        Instr::Load {
            op: LoadOp::Lw,
            rd,
            rs1,
            offset,
        } => {
            if rd == r {
                Origin::Loaded(rs1, offset.cast_unsigned())
            } else {
                Origin::Other
            }
        }
        Instr::Reg {
            op: RegOp::Add,
            rd,
            rs1,
            rs2,
        } => {
            if rd == r {
                Origin::Sum(rs1, rs2)
            } else {
                Origin::Other
            }
        }
        _ => Origin::Other,
    }
}
