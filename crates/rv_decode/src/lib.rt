//! Words of RV32IM to instructions, by the RISC-V unprivileged manual: its chapters on RV32I and on the "M" extension.
//! Tests: crates/machine_tests/src/instructions.rt.
#![tactic(auto)]

ghost use Rattle.std.specs.Prelude.{◌≡◌, ℕ, ◌+◌, ◌*◌, ◌^◌, ◌<◌, ◌≤◌, ◌↔◌, Some, IfSome, IfNone};
ghost use Rattle.scale_base.specs.Word.{Encodes};
ghost use Rattle.scale_base.specs.Class as class;
ghost use Rattle.scale_base.specs.Reading.{instr_of, imm_of, system_of};

mod fields;
mod operations;

use fields::{b_offset, funct3, funct7, i_offset, j_offset, opcode, rd, rs1, rs2, s_offset, u_imm};
use operations::{branch_op, imm_op, load_op, reg_op, store_op};
pub use scale_base::Instr;
use scale_base::{Class, ImmOp, RegOp};

/// The instruction that the word stands for. None exactly where the table of RV32IM has no row for the word.
pub fn decode(word: u32) -> Option<Instr>
    ensures read { result ≡ instr_of word }
    ensures found { IfSome result (λ i. Encodes word i) }
    ensures none { IfNone result ((i : Instr) → Encodes word i → ⊥) }
    ensures exact { (i : Instr) → (result ≡ Some i) ↔ Encodes word i }
{
    read(word)
}

/// The number of the word's five low bits from bit 20 on where the operation is a shift, else of its twelve upper bits.
fn imm(op: ImmOp, word: u32) -> i32
    ensures { result ≡ imm_of op word }
{
    match op {
        ImmOp::Slli | ImmOp::Srli | ImmOp::Srai => i32::from(rs2(word)),
        _ => i_offset(word),
    }
}

fn system(word: u32) -> Option<Instr>
    ensures { result ≡ system_of word }
{
    match word {
        0x0000_0073 => Some(Instr::Ecall),
        0x0010_0073 => Some(Instr::Ebreak),
        _ => None,
    }
}

/// The instruction, by the word's fields.
#[tactic(auto, unfolding(scale_base::specs::Reading::instr_of))]
fn read(word: u32) -> Option<Instr>
    ensures { result ≡ instr_of word }
{
    match opcode(word) {
        0x37 => Some(Instr::Lui {
            rd: rd(word),
            imm: u_imm(word),
        }),
        0x17 => Some(Instr::Auipc {
            rd: rd(word),
            imm: u_imm(word),
        }),
        0x6F => Some(Instr::Jal {
            rd: rd(word),
            offset: j_offset(word),
        }),
        0x67 if funct3(word) == 0 => Some(Instr::Jalr {
            rd: rd(word),
            rs1: rs1(word),
            offset: i_offset(word),
        }),
        0x63 => {
            let op = branch_op(funct3(word))?;
            Some(Instr::Branch {
                op,
                rs1: rs1(word),
                rs2: rs2(word),
                offset: b_offset(word),
            })
        }
        0x03 => {
            let op = load_op(funct3(word))?;
            Some(Instr::Load {
                op,
                rd: rd(word),
                rs1: rs1(word),
                offset: i_offset(word),
            })
        }
        0x23 => {
            let op = store_op(funct3(word))?;
            Some(Instr::Store {
                op,
                rs1: rs1(word),
                rs2: rs2(word),
                offset: s_offset(word),
            })
        }
        0x13 => {
            let op = imm_op(funct7(word), funct3(word))?;
            Some(Instr::Imm {
                op,
                rd: rd(word),
                rs1: rs1(word),
                imm: imm(op, word),
            })
        }
        0x33 => {
            let op = reg_op(funct7(word), funct3(word))?;
            Some(Instr::Reg {
                op,
                rd: rd(word),
                rs1: rs1(word),
                rs2: rs2(word),
            })
        }
        0x0F if funct3(word) == 0 => Some(Instr::Fence {
            rd: rd(word),
            rs1: rs1(word),
            imm: i_offset(word),
        }),
        0x73 => system(word),
        _ => None,
    }
}

/// The class of cost of the instruction. Whether it is taken matters for a branch alone.
pub fn class_of(instr: &Instr, taken: bool) -> Class
    ensures { result ≡ class.class_of instr.now taken }
{
    match *instr {
        Instr::Lui { .. } | Instr::Auipc { .. } | Instr::Imm { .. } => Class::Alu,
        Instr::Jal { .. } | Instr::Jalr { .. } => Class::Jump,
        Instr::Branch { .. } if taken => Class::Taken,
        Instr::Branch { .. } => Class::Untaken,
        Instr::Load { .. } => Class::Load,
        Instr::Store { .. } => Class::Store,
        Instr::Reg { op, .. } => reg_class(op),
        Instr::Fence { .. } => Class::Fence,
        Instr::Ecall | Instr::Ebreak => Class::Ecall,
    }
}

fn reg_class(op: RegOp) -> Class
    ensures { result ≡ class.reg_class op }
{
    match op {
        RegOp::Mul | RegOp::Mulh | RegOp::Mulhsu | RegOp::Mulhu => Class::Mul,
        RegOp::Div | RegOp::Divu | RegOp::Rem | RegOp::Remu => Class::Div,
        _ => Class::Alu,
    }
}
