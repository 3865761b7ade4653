//! What the operations give (RISC-V unprivileged manual, RV32I and the "M" extension).

ghost use Rattle.std.specs.Prelude.{◌≡◌, ◌-◌, ◌*◌, ◌/◌, ◌^◌, ◌==◌, ◌*ℤ◌, pos, int_div, int_rem, if◌then◌else◌};
ghost use Rattle.scale_base.specs.Arith as ops;

use scale_base::{BranchOp, ImmOp, RegOp};

#[inline(always)]
pub fn is_taken(op: BranchOp, a: u32, b: u32) -> bool
    ensures { result ≡ ops.is_taken op a b }
{
    match op {
        BranchOp::Beq => a == b,
        BranchOp::Bne => a != b,
        BranchOp::Blt => a.cast_signed() < b.cast_signed(),
        BranchOp::Bge => a.cast_signed() >= b.cast_signed(),
        BranchOp::Bltu => a < b,
        BranchOp::Bgeu => a >= b,
    }
}

#[inline(always)]
pub fn reg_op_for(op: ImmOp) -> RegOp
    ensures { result ≡ ops.reg_op_for op }
{
    match op {
        ImmOp::Addi => RegOp::Add,
        ImmOp::Slti => RegOp::Slt,
        ImmOp::Sltiu => RegOp::Sltu,
        ImmOp::Xori => RegOp::Xor,
        ImmOp::Ori => RegOp::Or,
        ImmOp::Andi => RegOp::And,
        ImmOp::Slli => RegOp::Sll,
        ImmOp::Srli => RegOp::Srl,
        ImmOp::Srai => RegOp::Sra,
    }
}

#[inline(always)]
pub fn reg_result(op: RegOp, a: u32, b: u32) -> u32
    ensures { result ≡ ops.reg_result op a b }
{
    match op {
        RegOp::Add => a.wrapping_add(b),
        RegOp::Sub => a.wrapping_sub(b),
        RegOp::Sll => a.wrapping_shl(b),
        RegOp::Slt => u32::from(a.cast_signed() < b.cast_signed()),
        RegOp::Sltu => u32::from(a < b),
        RegOp::Xor => a ^ b,
        RegOp::Srl => a.wrapping_shr(b),
        RegOp::Sra => a.cast_signed().wrapping_shr(b).cast_unsigned(),
        RegOp::Or => a | b,
        RegOp::And => a & b,
        RegOp::Mul => a.wrapping_mul(b),
        RegOp::Mulh => signed_upper_half(a, b),
        RegOp::Mulhsu => mixed_upper_half(a, b),
        RegOp::Mulhu => unsigned_upper_half(a, b),
        RegOp::Div => signed_quotient(a, b),
        RegOp::Divu => if b == 0 { u32::MAX } else { a / b },
        RegOp::Rem => signed_remainder(a, b),
        RegOp::Remu => if b == 0 { a } else { a % b },
    }
}

fn signed_upper_half(a: u32, b: u32) -> u32
    ensures { result ≡ ops.upper_half (ops.signed a *ℤ ops.signed b) }
{
    let product = i64::from(a.cast_signed()) * i64::from(b.cast_signed());
    (product.cast_unsigned() >> 32) as u32
}

fn mixed_upper_half(a: u32, b: u32) -> u32
    ensures { result ≡ ops.upper_half (ops.signed a *ℤ pos b) }
{
    let product = i64::from(a.cast_signed()) * i64::from(b);
    (product.cast_unsigned() >> 32) as u32
}

fn unsigned_upper_half(a: u32, b: u32) -> u32
    ensures { result ≡ a * b / 2 ^ 32 }
{
    let product = u64::from(a) * u64::from(b);
    (product >> 32) as u32
}

fn signed_quotient(a: u32, b: u32) -> u32
    ensures { result ≡ (if b == 0 then 2 ^ 32 - 1 else ops.unsigned (int_div (ops.signed a) (ops.signed b))) }
{
    if b == 0 {
        u32::MAX
    } else {
        a.cast_signed()
            .wrapping_div(b.cast_signed())
            .cast_unsigned()
    }
}

fn signed_remainder(a: u32, b: u32) -> u32
    ensures { result ≡ (if b == 0 then a else ops.unsigned (int_rem (ops.signed a) (ops.signed b))) }
{
    if b == 0 {
        a
    } else {
        a.cast_signed()
            .wrapping_rem(b.cast_signed())
            .cast_unsigned()
    }
}
