//! The lines of a made program.

ghost use Rattle.std.specs.Prelude.{◌≡◌, ◌≢◌, ◌%◌, ◌≤◌, ◌<◌, ◌+◌, ◌*◌, ◌++◌, ◌==◌, length, replicate, OnOk, IfOk};
ghost use Rattle.image_maker.specs.Making as making;

use crate::draws::Draws;
use crate::line::Line;
use scale_base::{BranchOp, ImmOp, Instr, LoadOp, NoMemory, RegOp, StoreOp, WORD_LIMIT};
use std::alloc::Global;

/// Where the first word stands.
const START: u32 = 0x0001_0000;

const fn addi(rd: u8, rs1: u8, imm: i32) -> Line
    ensures { result ≡ making.addi rd rs1 imm }
{
    Line::Op(Instr::Imm {
        op: ImmOp::Addi,
        rd,
        rs1,
        imm,
    })
}

const MUL: Line = Line::Op(Instr::Reg {
    op: RegOp::Mul,
    rd: 9,
    rs1: 9,
    rs2: 8,
});

const DIV: Line = Line::Op(Instr::Reg {
    op: RegOp::Div,
    rd: 6,
    rs1: 6,
    rs2: 8,
});

const ECALL: Line = Line::Op(Instr::Ecall);

fn lbu(k: u32) -> Line
    ensures { result ≡ making.lbu (k % 256) }
{
    Line::Op(Instr::Load {
        op: LoadOp::Lbu,
        rd: 5,
        rs1: 18,
        offset: (k % 256) as i32,
    })
}

fn branch(op: BranchOp, rs1: u8, rs2: u8, offset: i32) -> Line
    ensures { result ≡ making.branch op rs1 rs2 offset }
{
    Line::Op(Instr::Branch {
        op,
        rs1,
        rs2,
        offset,
    })
}

/// Adds a line so many times.
fn push_times(lines: &mut Vec<Line>, count: u32, line: Line) -> Result<(), NoMemory>
    ensures { OnOk result (lines.new.items ≡ lines.old.items ++ replicate count line) }
{
    for _ in 0..count {
        lines.push(line)?;
    }
    Ok(())
}

/// Adds the lines before the blocks.
fn push_opening(lines: &mut Vec<Line>) -> Result<(), NoMemory>
    ensures { OnOk result (lines.new.items ≡ lines.old.items ++ making.opening) }
{
    lines.extend_from_slice(&[
        addi(8, 0, 3),
        addi(9, 0, 1),
        addi(18, 2, -1024),
        addi(10, 0, 0),
        addi(11, 18, 0),
        addi(12, 0, 256),
        addi(17, 0, 63),
        ECALL,
    ])?;
    Ok(())
}

/// Adds the lines behind the blocks, up to the functions.
fn push_closing(lines: &mut Vec<Line>) -> Result<(), NoMemory>
    ensures { OnOk result (lines.new.items ≡ lines.old.items ++ making.closing) }
{
    let store = Line::Op(Instr::Store {
        op: StoreOp::Sw,
        rs1: 18,
        rs2: 9,
        offset: 0,
    });
    lines.extend_from_slice(&[
        store,
        addi(10, 0, 1),
        addi(11, 18, 0),
        addi(12, 0, 4),
        addi(17, 0, 64),
        ECALL,
        addi(10, 0, 0),
        addi(17, 0, 93),
        ECALL,
    ])?;
    Ok(())
}

/// Adds function `j`.
fn push_leaf(lines: &mut Vec<Line>, j: u32) -> Result<(), NoMemory>
    requires { j < 4 }
    ensures { OnOk result (lines.new.items ≡ lines.old.items ++ making.leaf_function j) }
{
    lines.push(Line::Label(j))?;
    push_times(lines, j + 1, MUL)?;
    lines.push(Line::Op(Instr::Jalr {
        rd: 0,
        rs1: 1,
        offset: 0,
    }))?;
    Ok(())
}

/// Adds the functions.
fn push_leaves(lines: &mut Vec<Line>) -> Result<(), NoMemory>
    ensures { OnOk result (lines.new.items ≡ lines.old.items ++ making.leaf_functions) }
{
    push_leaf(lines, 0)?;
    push_leaf(lines, 1)?;
    push_leaf(lines, 2)?;
    push_leaf(lines, 3)?;
    Ok(())
}

/// Adds a branch over divisions.
fn push_skipped(lines: &mut Vec<Line>, k: u32, count: u32) -> Result<(), NoMemory>
    requires { count ≤ 16 }
    ensures { OnOk result (lines.new.items ≡ lines.old.items ++ making.skipped (k % 256) count) }
{
    lines.push(lbu(k))?;
    lines.push(branch(BranchOp::Beq, 5, 0, 4 * (count as i32 + 1)))?;
    push_times(lines, count, DIV)
}

/// Adds a loop.
fn push_loop(lines: &mut Vec<Line>, k: u32) -> Result<(), NoMemory>
    ensures { OnOk result (lines.new.items ≡ lines.old.items ++ making.loop (k % 256)) }
{
    let mask = Line::Op(Instr::Imm {
        op: ImmOp::Andi,
        rd: 5,
        rs1: 5,
        imm: 15,
    });
    lines.extend_from_slice(&[
        lbu(k),
        mask,
        addi(9, 9, 3),
        addi(5, 5, -1),
        branch(BranchOp::Blt, 0, 5, -8),
    ])?;
    Ok(())
}

/// Adds block `k`. The answer says whether it is a loop.
fn push_block(lines: &mut Vec<Line>, draws: &mut Draws, k: u32) -> Result<bool, NoMemory>
    ensures lines { OnOk result (lines.new.items ≡ lines.old.items ++ making.block k draws.old.state) }
    ensures state { OnOk result (draws.new.state ≡ making.state_behind draws.old.state) }
    ensures loops { IfOk result (λ is_loop. is_loop ≡ (making.kind draws.old.state == 2)) }
{
    let kind = draws.draw() % 4;
    if kind == 2 {
        push_loop(lines, k)?;
        return Ok(true);
    }
    push_other(lines, k, kind, draws.draw())?;
    Ok(false)
}

/// Adds block `k` of a kind that takes a number.
#[tactic(auto, unfolding(crate::specs::Making::made_block))]
fn push_other(lines: &mut Vec<Line>, k: u32, kind: u32, number: u32) -> Result<(), NoMemory>
    requires few { kind < 4 }
    requires other { kind ≢ 2 }
    ensures { OnOk result (lines.new.items ≡ lines.old.items ++ making.made_block k kind number) }
{
    if kind == 0 {
        return push_times(lines, 1 + number % 8, MUL);
    }
    if kind == 1 {
        return push_skipped(lines, k, 1 + number % 16);
    }
    lines.push(Line::JalTo {
        rd: 1,
        label: number % 4,
    })?;
    Ok(())
}

/// The lines of a program that grows, and the headers of its loops.
#[derive(Drop)]
pub struct Program {
    pub lines: Vec<Line>,
    pub headers: Vec<u32>,
    pub draws: Draws,
}

impl Program {
    /// Adds block `k`.
    fn add_block(&mut self, k: u32) -> Result<(), NoMemory>
        requires { length self.old.lines.items ≤ WORD_LIMIT }
        ensures lines { OnOk result (self.new.lines.items ≡ self.old.lines.items ++ making.block k self.old.draws.state) }
        ensures headers { OnOk result (self.new.headers.items ≡ self.old.headers.items ++ making.header_in (length self.old.lines.items)
            self.old.draws.state) }
        ensures state { OnOk result (self.new.draws.state ≡ making.state_behind self.old.draws.state) }
    {
        let before = self.lines.len() as u32;
        if push_block(&mut self.lines, &mut self.draws, k)? {
            self.headers.push(START + 4 * (before + 2))?;
        }
        Ok(())
    }
}

/// The program with so many blocks.
pub fn make_program(alloc: Global, number: u64, size: u32) -> Result<Program, NoMemory>
    requires { size ≤ 2000 }
    ensures lines { IfOk result (λ program. program.lines.items ≡ making.program number size) }
    ensures headers { IfOk result (λ program. program.headers.items ≡ making.headers number size) }
    ensures state { IfOk result (λ program. program.draws.state ≡ making.state_at number size) }
{
    let mut program = Program {
        lines: Vec::new(alloc),
        headers: Vec::new(alloc),
        draws: Draws { state: number },
    };
    push_opening(&mut program.lines)?;
    for k in 0..size {
        program.add_block(k)?;
    }
    push_closing(&mut program.lines)?;
    push_leaves(&mut program.lines)?;
    Ok(program)
}
