//! What an instruction says of the way on.

ghost use Rattle.std.specs.Prelude.{◌≡◌, ℕ, Option, Some, None, Ok, true, option_and_then};
ghost use Rattle.scale_base.specs.Arith.{moved_by};
ghost use Rattle.scale_base.specs.Reading.{instr_of};
ghost use Rattle.scale_base.specs.Image.{image_of, is_word_address, text_word};
ghost use Rattle.code_text.specs.Text as texts;

use cost_theory::Flow;
use elf_image::ImageView;
use rv_decode::decode;
use scale_base::{ImmOp, Instr};

/// The address plus a signed number.
pub fn moved(at: u32, offset: i32) -> u32
    ensures { result ≡ moved_by at offset }
{
    at.wrapping_add(offset.cast_unsigned())
}

/// The instruction at an address, if a word of the text stands there and has a row.
pub fn instr_at(view: &ImageView<'_>, at: u32) -> Option<Instr>
    requires { image_of view.now.file ≡ Ok view.now }
    ensures read { result ≡ option_and_then instr_of (text_word view.now at) }
    ensures text { is_word_address view.now at ≡ true → result ≡ texts.instr_at (texts.text_of view.now) at }
{
    match view.word_at(at) {
        Some(word) => decode(word),
        None => None,
    }
}

/// Where a branch or a JAL goes.
pub fn jump_of(instr: &Instr, at: u32) -> Option<u32>
    ensures { result ≡ texts.jump_of (Some instr.now) at }
{
    match *instr {
        Instr::Branch { offset, .. } => Some(moved(at, offset)),
        Instr::Jal { offset, .. } => Some(moved(at, offset)),
        _ => None,
    }
}

/// The number that an instruction puts into x17 from x0.
pub fn puts_17(instr: &Instr) -> Option<u32>
    ensures { result ≡ texts.puts17 instr.now }
{
    match *instr {
        Instr::Imm {
            op: ImmOp::Addi,
            rd: 17,
            rs1: 0,
            imm,
        } => Some(moved(0, imm)),
        _ => None,
    }
}

/// Whether an instruction goes on to the next one, and leaves x17 as it is. FENCE writes no register.
pub fn leaves_17(instr: &Instr) -> bool
    ensures { result ≡ texts.leaves17 instr.now }
{
    match *instr {
        Instr::Lui { rd, .. }
        | Instr::Auipc { rd, .. }
        | Instr::Load { rd, .. }
        | Instr::Imm { rd, .. }
        | Instr::Reg { rd, .. } => rd != 17,
        Instr::Store { .. } | Instr::Fence { .. } => true,
        _ => false,
    }
}

/// An ECALL, by the number that x17 is known to hold. Services 93 and 94 exit.
fn ecall_kind(known: Option<u32>) -> Flow
    ensures { result ≡ texts.ecall_kind known }
{
    match known {
        Some(93 | 94) => Flow::Exit,
        Some(_) => Flow::Next,
        None => Flow::MayExit,
    }
}

fn jal_kind(rd: u8, to: u32) -> Flow
    ensures { result ≡ texts.jal_kind rd to }
{
    match rd {
        0 => Flow::Jump(to),
        1 => Flow::Call(to),
        _ => Flow::Refused,
    }
}

fn jalr_kind(rd: u8, rs1: u8, offset: i32) -> Flow
    ensures { result ≡ texts.jalr_kind rd rs1 offset }
{
    if rd == 0 && rs1 == 1 && offset == 0 {
        Flow::Return
    } else {
        Flow::Refused
    }
}

/// What the instruction at an address says of the way on, by the number that x17 is known to hold there if it
/// is an ECALL.
pub fn instr_kind(instr: &Instr, at: u32, known: Option<u32>) -> Flow
    ensures { (t : texts.Text) → (instr.now ≡ Instr.Ecall → texts.known t at ≡ known) → result ≡ texts.instr_kind t at instr.now }
{
    match *instr {
        Instr::Branch { offset, .. } => Flow::Branch(moved(at, offset)),
        Instr::Jal { rd, offset } => jal_kind(rd, moved(at, offset)),
        Instr::Jalr { rd, rs1, offset } => jalr_kind(rd, rs1, offset),
        Instr::Ecall => ecall_kind(known),
        Instr::Ebreak => Flow::Breakpoint,
        _ => Flow::Next,
    }
}
