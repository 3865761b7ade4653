//! The instructions of each fragment, t0 being x5 and t1 x6 (RISC-V ABIs Specification, integer registers).

ghost use Rattle.std.specs.Prelude.{◌≡◌, ◌++◌, ◌<◌, ◌≤◌, OnOk};
ghost use Rattle.stub_writer.specs.Fragments as fragments;
ghost use Rattle.stub_writer.specs.Stubs as stubs;

use crate::words::{address, push_code};
use scale_base::{Fragment, ImmOp, Instr, LoadOp, NoMemory, PORT, RegOp, StoreOp};

const X5: u8 = 5;

const X6: u8 = 6;

/// Where the window's word lies, seen from x0, in bytes.
fn slot(k: u16) -> i32
    requires { k < 512 }
    ensures { result ≡ fragments.slot k }
{
    4 * k as i32 - 2048
}

fn sw(r: u8, k: u16) -> Instr
    requires { k < 512 }
    ensures { result ≡ fragments.sw r k }
{
    Instr::Store {
        op: StoreOp::Sw,
        rs1: 0,
        rs2: r,
        offset: slot(k),
    }
}

fn lw(r: u8, k: u16) -> Instr
    requires { k < 512 }
    ensures { result ≡ fragments.lw r k }
{
    Instr::Load {
        op: LoadOp::Lw,
        rd: r,
        rs1: 0,
        offset: slot(k),
    }
}

fn immediate(op: ImmOp, r: u8, imm: i32) -> Instr
    ensures { result ≡ Instr.Imm op r r imm }
{
    Instr::Imm {
        op,
        rd: r,
        rs1: r,
        imm,
    }
}

fn hi(c: u32) -> u32
    ensures { result ≡ fragments.hi c }
{
    c.wrapping_add(0x800) / 4096 * 4096
}

fn lo(c: u32) -> i32
    ensures { result ≡ fragments.lo c }
{
    let low = (c % 4096) as i32;
    if low < 2048 { low } else { low - 4096 }
}

/// The code of a Switch by its word.
pub fn switch_code(word: u32) -> [Instr; 11]
    ensures { result ≡ fragments.switch_code word }
{
    [
        sw(X5, 0),
        sw(X6, 1),
        lw(X5, PORT as u16),
        immediate(ImmOp::Slli, X5, 2),
        Instr::Lui {
            rd: X6,
            imm: hi(word),
        },
        immediate(ImmOp::Addi, X6, lo(word)),
        Instr::Reg {
            op: RegOp::Srl,
            rd: X6,
            rs1: X6,
            rs2: X5,
        },
        immediate(ImmOp::Andi, X6, 15),
        sw(X6, PORT as u16),
        lw(X6, 1),
        lw(X5, 0),
    ]
}

/// The code of an Exit, of which the rows stand at `table`.
pub fn exit_code(counter: u16, shift: u8, table: u32) -> [Instr; 16]
    requires { counter < 512 }
    ensures { result ≡ fragments.exit_code counter shift table }
{
    [
        sw(X5, 0),
        sw(X6, 1),
        lw(X5, counter),
        immediate(ImmOp::Srli, X5, shift as i32),
        immediate(ImmOp::Slli, X5, 2),
        Instr::Lui {
            rd: X6,
            imm: hi(table),
        },
        Instr::Reg {
            op: RegOp::Add,
            rd: X5,
            rs1: X5,
            rs2: X6,
        },
        Instr::Load {
            op: LoadOp::Lw,
            rd: X6,
            rs1: X5,
            offset: lo(table),
        },
        lw(X5, PORT as u16),
        immediate(ImmOp::Slli, X5, 2),
        Instr::Reg {
            op: RegOp::Srl,
            rd: X6,
            rs1: X6,
            rs2: X5,
        },
        immediate(ImmOp::Andi, X6, 15),
        sw(0, counter),
        sw(X6, PORT as u16),
        lw(X6, 1),
        lw(X5, 0),
    ]
}

/// The code of a Reset.
pub fn reset_code(counter: u16) -> [Instr; 1]
    requires { counter < 512 }
    ensures { result ≡ fragments.reset_code counter }
{
    [sw(0, counter)]
}

/// The code of a Count.
pub fn count_code(counter: u16) -> [Instr; 5]
    requires { counter < 512 }
    ensures { result ≡ fragments.count_code counter }
{
    [
        sw(X5, 0),
        lw(X5, counter),
        immediate(ImmOp::Addi, X5, 1),
        sw(X5, counter),
        lw(X5, 0),
    ]
}

/// The code of a Lowest.
pub fn lowest_code(down: bool) -> [Instr; 1]
    ensures { result ≡ fragments.lowest_code down }
{
    [sw(0, if down { PORT as u16 } else { 1 })]
}

/// The code of a Tally.
pub fn tally_code(counter: u16, shift: u8, from: u16) -> [Instr; 10]
    requires counter { counter < 512 }
    requires from { 1 ≤ from }
    ensures { result ≡ fragments.tally_code counter shift from }
{
    [
        sw(X5, 0),
        lw(X5, counter),
        immediate(ImmOp::Addi, X5, 1),
        sw(X5, counter),
        immediate(ImmOp::Srli, X5, shift as i32),
        immediate(ImmOp::Addi, X5, -(from as i32)),
        immediate(ImmOp::Srai, X5, 31),
        immediate(ImmOp::Andi, X5, -2040),
        Instr::Store {
            op: StoreOp::Sw,
            rs1: X5,
            rs2: 0,
            offset: -4,
        },
        lw(X5, 0),
    ]
}

/// Adds the code of a fragment, of which the rows stand at `table`.
pub fn push_fragment(out: &mut Vec<u8>, table: u64, fragment: &Fragment) -> Result<(), NoMemory>
    requires { fragments.IsFragment fragment.now }
    ensures { OnOk result (out.new.items ≡ out.old.items ++ stubs.code_bytes (fragments.fragment_code table fragment.now)) }
{
    match fragment {
        Fragment::Switch { word } => push_code(out, &switch_code(*word)),
        Fragment::Exit { counter, shift, .. } => push_code(
            out,
            &exit_code(*counter, *shift, address(table)),
        ),
        Fragment::Reset { counter } => push_code(out, &reset_code(*counter)),
        Fragment::Count { counter } => push_code(out, &count_code(*counter)),
        Fragment::Lowest { down } => push_code(out, &lowest_code(*down)),
        Fragment::Tally {
            counter,
            shift,
            from,
        } => push_code(out, &tally_code(*counter, *shift, *from)),
    }
}
