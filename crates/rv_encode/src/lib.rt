//! Instructions of RV32IM to words, by the RISC-V unprivileged manual: its chapters on RV32I and on the "M" extension.
//! Tests: crates/machine_tests/src/instructions.rt.
#![tactic(auto)]

ghost use Rattle.std.specs.Prelude.{◌≡◌, ℕ, ◌↔◌, Some, IfSome, IfNone, IsTrue, ◌<◌};
ghost use Rattle.scale_base.specs.Word.{Encodes, FieldsInRange, HasImmRange, imm_field, word_of, branch_code, load_code, store_code, imm_code, reg_code, reg_kind};
ghost use Rattle.scale_base.specs.Reading.{instr_of};
ghost use Rattle.rv_encode.specs.Jumps as jumps;

mod fields;
mod forms;

use fields::{bits_12, bits_13, bits_21, fits_12, fits_13, fits_21, is_even, is_shift};
use forms::{b_form, i_form, j_form, r_form, s_form, u_form};
use scale_base::{BranchOp, ImmOp, Instr, LoadOp, RegOp, StoreOp};

/// The word of the instruction. None exactly where a field is out of its range.
pub fn encode(instr: &Instr) -> Option<u32>
    ensures found { IfSome result (λ word. Encodes word instr.now) }
    ensures none { IfNone result (FieldsInRange instr.now → ⊥) }
    ensures exact { (word : ℕ) → (result ≡ Some word) ↔ Encodes word instr.now }
    ensures back { IfSome result (λ word. instr_of word ≡ Some instr.now) }
{
    if fields_in_range(instr) {
        Some(word(instr))
    } else {
        None
    }
}

/// Whether the instruction has a word.
fn fields_in_range(instr: &Instr) -> bool
    ensures { IsTrue result ↔ FieldsInRange instr.now }
{
    match *instr {
        Instr::Lui { rd, imm } | Instr::Auipc { rd, imm } => rd < 32 && imm % 4096 == 0,
        Instr::Jal { rd, offset } => rd < 32 && is_even(offset) && fits_21(offset),
        Instr::Jalr { rd, rs1, offset } => rd < 32 && rs1 < 32 && fits_12(offset),
        Instr::Branch {
            rs1,
            rs2,
            offset,
            ..
        } => rs1 < 32 && rs2 < 32 && is_even(offset) && fits_13(offset),
        Instr::Load {
            rd,
            rs1,
            offset,
            ..
        } => rd < 32 && rs1 < 32 && fits_12(offset),
        Instr::Store {
            rs1,
            rs2,
            offset,
            ..
        } => rs1 < 32 && rs2 < 32 && fits_12(offset),
        Instr::Imm { op, rd, rs1, imm } => rd < 32 && rs1 < 32 && has_imm_range(op, imm),
        Instr::Reg { rd, rs1, rs2, .. } => rd < 32 && rs1 < 32 && rs2 < 32,
        Instr::Fence { rd, rs1, imm } => rd < 32 && rs1 < 32 && fits_12(imm),
        Instr::Ecall | Instr::Ebreak => true,
    }
}

fn has_imm_range(op: ImmOp, imm: i32) -> bool
    ensures { IsTrue result ↔ HasImmRange op imm }
{
    match op {
        ImmOp::Slli | ImmOp::Srli | ImmOp::Srai => is_shift(imm),
        _ => fits_12(imm),
    }
}

/// The word of an instruction that has one.
fn word(instr: &Instr) -> u32
    requires { FieldsInRange instr.now }
    ensures { result ≡ word_of instr.now }
{
    match *instr {
        Instr::Lui { rd, imm } => u_form(imm, rd, 0x37),
        Instr::Auipc { rd, imm } => u_form(imm, rd, 0x17),
        Instr::Jal { rd, offset } => j_form(bits_21(offset), rd, 0x6F),
        Instr::Jalr { rd, rs1, offset } => i_form(bits_12(offset), rs1, 0, rd, 0x67),
        Instr::Branch {
            op,
            rs1,
            rs2,
            offset,
        } => b_form(bits_13(offset), rs2, rs1, branch_number(op), 0x63),
        Instr::Load {
            op,
            rd,
            rs1,
            offset,
        } => i_form(bits_12(offset), rs1, load_number(op), rd, 0x03),
        Instr::Store {
            op,
            rs1,
            rs2,
            offset,
        } => s_form(bits_12(offset), rs2, rs1, store_number(op), 0x23),
        Instr::Imm { op, rd, rs1, imm } => i_form(imm_bits(op, imm), rs1, imm_number(op), rd, 0x13),
        Instr::Reg { op, rd, rs1, rs2 } => r_form(
            reg_upper(op),
            rs2,
            rs1,
            reg_number(op),
            rd,
            0x33,
        ),
        Instr::Fence { rd, rs1, imm } => i_form(bits_12(imm), rs1, 0, rd, 0x0F),
        Instr::Ecall => 0x0000_0073,
        Instr::Ebreak => 0x0010_0073,
    }
}

fn imm_bits(op: ImmOp, imm: i32) -> u32
    requires { HasImmRange op imm }
    ensures is { result ≡ imm_field op imm }
    ensures small { result < 4096 }
{
    match op {
        ImmOp::Slli | ImmOp::Srli => imm as u32,
        ImmOp::Srai => 0x400 | imm as u32,
        _ => bits_12(imm),
    }
}

fn branch_number(op: BranchOp) -> u32
    ensures is { result ≡ branch_code op }
    ensures small { result < 8 }
{
    match op {
        BranchOp::Beq => 0,
        BranchOp::Bne => 1,
        BranchOp::Blt => 4,
        BranchOp::Bge => 5,
        BranchOp::Bltu => 6,
        BranchOp::Bgeu => 7,
    }
}

fn load_number(op: LoadOp) -> u32
    ensures is { result ≡ load_code op }
    ensures small { result < 8 }
{
    match op {
        LoadOp::Lb => 0,
        LoadOp::Lh => 1,
        LoadOp::Lw => 2,
        LoadOp::Lbu => 4,
        LoadOp::Lhu => 5,
    }
}

fn store_number(op: StoreOp) -> u32
    ensures is { result ≡ store_code op }
    ensures small { result < 8 }
{
    match op {
        StoreOp::Sb => 0,
        StoreOp::Sh => 1,
        StoreOp::Sw => 2,
    }
}

fn imm_number(op: ImmOp) -> u32
    ensures is { result ≡ imm_code op }
    ensures small { result < 8 }
{
    match op {
        ImmOp::Addi => 0,
        ImmOp::Slli => 1,
        ImmOp::Slti => 2,
        ImmOp::Sltiu => 3,
        ImmOp::Xori => 4,
        ImmOp::Srli | ImmOp::Srai => 5,
        ImmOp::Ori => 6,
        ImmOp::Andi => 7,
    }
}

fn reg_number(op: RegOp) -> u32
    ensures is { result ≡ reg_code op }
    ensures small { result < 8 }
{
    match op {
        RegOp::Add | RegOp::Sub | RegOp::Mul => 0,
        RegOp::Sll | RegOp::Mulh => 1,
        RegOp::Slt | RegOp::Mulhsu => 2,
        RegOp::Sltu | RegOp::Mulhu => 3,
        RegOp::Xor | RegOp::Div => 4,
        RegOp::Srl | RegOp::Sra | RegOp::Divu => 5,
        RegOp::Or | RegOp::Rem => 6,
        RegOp::And | RegOp::Remu => 7,
    }
}

fn reg_upper(op: RegOp) -> u32
    ensures is { result ≡ reg_kind op }
    ensures small { result < 128 }
{
    match op {
        RegOp::Sub | RegOp::Sra => 0x20,
        RegOp::Mul | RegOp::Mulh | RegOp::Mulhsu | RegOp::Mulhu => 1,
        RegOp::Div | RegOp::Divu | RegOp::Rem | RegOp::Remu => 1,
        _ => 0,
    }
}

/// Whether a JAL at `from` reaches `to`: the difference as a signed number of 32 bits is even, and from -1,048,576 to
/// 1,048,574.
pub fn jal_fits(from: u32, to: u32) -> bool
    ensures { IsTrue result ↔ jumps.Reaches from to }
{
    let distance = to.wrapping_sub(from).cast_signed();
    is_even(distance) && fits_21(distance)
}
