//! What instructions write.

ghost use Rattle.std.specs.Prelude.{◌≡◌, ◌≤◌, ◌<◌, ◌^◌, length, is_some, None, if◌then◌else◌};
ghost use Rattle.std.specs.List.{All};
ghost use Rattle.bound_laws.specs.Values as values;
ghost use Rattle.scale_base.specs.Arith.{unsigned};
ghost use Rattle.wrapped_intervals.specs.Small.{IsFoundOr, IsKeptOr, row};

use crate::arcs::{Arc, WORDS, exactly, top_of, word};
use crate::bits::{common_of, parted_of, united_of};
use crate::quotients::{
    lowered_by, lowered_of, power_of, product_of, quotient_of, remainder_of, signed_quotient_of,
    signed_remainder_of, signed_upper_product_of, upper_product_of,
};
use crate::sums::{difference_of, plus, sum_of, sum_with, times};
use scale_base::{ImmOp, Instr, LoadOp, RegOp};

// 0 or 1.
fn truth() -> Option<Arc>
    ensures truth { result ≡ values.truth }
    ensures found { IsFoundOr result }
{
    Some(Arc::of(0, 1))
}

// Any word, where the second operand is one.
fn word_by(j: Option<Arc>) -> Option<Arc>
    ensures any { result ≡ (if is_some j then values.word else None) }
    ensures found { IsFoundOr result }
{
    match j {
        Some(_) => word(),
        None => None,
    }
}

/// What an operation on two registers gives.
pub fn reg_arc(op: RegOp, i: Option<Arc>, j: Option<Arc>) -> Option<Arc>
    requires i { IsKeptOr i }
    requires j { IsKeptOr j }
    ensures result { result ≡ values.reg_arc op i j }
    ensures found { IsFoundOr result }
{
    match op {
        RegOp::Add => sum_of(i, j),
        RegOp::Sub => difference_of(i, j),
        RegOp::Sll => product_of(i, power_of(j)),
        RegOp::Slt | RegOp::Sltu => truth(),
        RegOp::Xor => parted_of(i, j),
        RegOp::Srl => quotient_of(i, power_of(j)),
        RegOp::Sra => lowered_of(i, j),
        RegOp::Or => united_of(i, j),
        RegOp::And => common_of(i, j),
        RegOp::Mul => product_of(i, j),
        RegOp::Mulh => signed_upper_product_of(i, j),
        RegOp::Mulhsu => word_by(j),
        RegOp::Mulhu => upper_product_of(i, j),
        RegOp::Div => signed_quotient_of(i, j),
        RegOp::Divu => quotient_of(i, j),
        RegOp::Rem => signed_remainder_of(i, j),
        RegOp::Remu => remainder_of(i, j),
    }
}

/// What an operation on a register and a number gives.
pub fn imm_arc(op: ImmOp, i: Option<Arc>, n: u32) -> Option<Arc>
    requires i { IsKeptOr i }
    ensures result { result ≡ values.imm_arc op i n }
    ensures found { IsFoundOr result }
{
    match op {
        ImmOp::Addi => sum_with(i, u64::from(n)),
        ImmOp::Slti | ImmOp::Sltiu => truth(),
        ImmOp::Xori => parted_of(i, exactly(u64::from(n))),
        ImmOp::Ori => united_of(i, exactly(u64::from(n))),
        ImmOp::Andi => common_of(i, exactly(u64::from(n))),
        ImmOp::Slli => times(i, 1 << (n % 32)),
        ImmOp::Srli => quotient_of(i, exactly(1 << (n % 32))),
        ImmOp::Srai => lowered_by(i, 1 << (n % 32)),
    }
}

/// What a load gives.
pub fn load_arc(op: LoadOp) -> Option<Arc>
    ensures result { result ≡ values.load_arc op }
    ensures found { IsFoundOr result }
{
    match op {
        LoadOp::Lb => Some(Arc::of(WORDS - 128, 255)),
        LoadOp::Lh => Some(Arc::of(WORDS - 32768, 65535)),
        LoadOp::Lw => word(),
        LoadOp::Lbu => Some(Arc::of(0, 255)),
        LoadOp::Lhu => Some(Arc::of(0, 65535)),
    }
}

/// The answer of a service.
pub fn answer_arc(count: Option<Arc>) -> Option<Arc>
    requires { IsFoundOr count }
    ensures result { result ≡ values.answer_arc count }
    ensures found { IsFoundOr result }
{
    Some(Arc::of(WORDS - 38, 38 + top_of(count).min(256)))
}

/// The interval of a register by those of all. x0 is 0.
pub fn held(at: &[Option<Arc>], r: u8) -> Option<Arc>
    requires size { length at.now ≡ 32 }
    requires kept { All IsKeptOr at.now }
    ensures held { result ≡ values.held (row at.now) r }
    ensures kept { IsKeptOr result }
{
    let r = usize::from(r);
    if 0 < r && r < 32 {
        at[r]
    } else {
        Some(Arc::strided(0, 0, 0))
    }
}

/// What the instruction at an address writes.
pub fn written(i: Instr, pc: u32, at: &[Option<Arc>]) -> Option<Arc>
    requires size { length at.now ≡ 32 }
    requires kept { All IsKeptOr at.now }
    ensures written { result ≡ values.written i pc (row at.now) }
    ensures found { IsFoundOr result }
{
    match i {
        Instr::Lui { rd: _, imm } => exactly(u64::from(imm)),
        Instr::Auipc { rd: _, imm } => exactly(plus(u64::from(pc), u64::from(imm))),
        Instr::Jal { rd: _, offset: _ } => exactly(plus(u64::from(pc), 4)),
        Instr::Jalr {
            rd: _,
            rs1: _,
            offset: _,
        } => exactly(plus(u64::from(pc), 4)),
        Instr::Load {
            op,
            rd: _,
            rs1: _,
            offset: _,
        } => load_arc(op),
        Instr::Imm {
            op,
            rd: _,
            rs1,
            imm,
        } => imm_arc(op, held(at, rs1), imm.cast_unsigned()),
        Instr::Reg {
            op,
            rd: _,
            rs1,
            rs2,
        } => reg_arc(op, held(at, rs1), held(at, rs2)),
        Instr::Ecall => answer_arc(held(at, 12)),
        Instr::Branch {
            op: _,
            rs1: _,
            rs2: _,
            offset: _,
        } => None,
        Instr::Store {
            op: _,
            rs1: _,
            rs2: _,
            offset: _,
        } => None,
        Instr::Fence {
            rd: _,
            rs1: _,
            imm: _,
        } => None,
        Instr::Ebreak => None,
    }
}
