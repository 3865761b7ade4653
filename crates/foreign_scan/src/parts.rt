//! Parts of an instruction that may be one of a kind.

ghost use Rattle.std.specs.Prelude.{◌≡◌};
ghost use Rattle.foreign_scan.specs.Parts as parts;

use scale_base::Instr;

/// The offset of the window's word of the speed port from x0.
const PORT_OFFSET: i32 = -4;

/// The offset of a store.
pub fn store_offset(instr: Option<Instr>) -> Option<i32>
    ensures { result ≡ parts.store_offset_of instr }
{
    match instr {
        Some(Instr::Store { offset, .. }) => Some(offset),
        _ => None,
    }
}

/// The offset of a load.
pub fn load_offset(instr: Option<Instr>) -> Option<i32>
    ensures { result ≡ parts.load_offset_of instr }
{
    match instr {
        Some(Instr::Load { offset, .. }) => Some(offset),
        _ => None,
    }
}

/// The number of an immediate operation.
pub fn number(instr: Option<Instr>) -> Option<i32>
    ensures { result ≡ parts.immediate_number instr }
{
    match instr {
        Some(Instr::Imm { imm, .. }) => Some(imm),
        _ => None,
    }
}

/// The upper number of a LUI.
pub fn upper(instr: Option<Instr>) -> Option<u32>
    ensures { result ≡ parts.upper_of instr }
{
    match instr {
        Some(Instr::Lui { imm, .. }) => Some(imm),
        _ => None,
    }
}

/// Whether it stores x0.
pub fn clears(instr: Option<Instr>) -> bool
    ensures { result ≡ parts.clears instr }
{
    match instr {
        Some(Instr::Store { rs2, .. }) => rs2 == 0,
        _ => false,
    }
}

/// Whether it is a load.
pub fn is_load(instr: Option<Instr>) -> bool
    ensures { result ≡ parts.loads_word instr }
{
    match instr {
        Some(Instr::Load { .. }) => true,
        _ => false,
    }
}

/// Whether it loads with the speed port's offset.
pub fn loads_port(instr: Option<Instr>) -> bool
    ensures { result ≡ parts.loads_port instr }
{
    match instr {
        Some(Instr::Load { offset, .. }) => offset == PORT_OFFSET,
        _ => false,
    }
}

/// The offset of a jump that links no register.
pub fn goto_offset(instr: Option<Instr>) -> Option<i32>
    ensures { result ≡ parts.goto_of instr }
{
    match instr {
        Some(Instr::Jal { rd, offset }) if rd == 0 => Some(offset),
        _ => None,
    }
}

/// The offset of a branch.
pub fn branch_offset(instr: Option<Instr>) -> Option<i32>
    ensures { result ≡ parts.branch_offset_of instr }
{
    match instr {
        Some(Instr::Branch { offset, .. }) => Some(offset),
        _ => None,
    }
}
