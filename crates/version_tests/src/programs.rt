//! Programs of one loop, which read a byte and end with a sum, and what is proposed for them.

use code_graph::build_graph;
use elf_image::ImageView;
use elf_view::read_image;
use flow_graph::CodeGraph;
use image_maker::{Line, assemble, plain_image};
use loop_file::{LoopNote, LoopNotes, RangeList};
use loop_tree::build_loops;
use scale_base::{BranchOp, ImmOp, Instr, LoadOp, Range, RegOp};
use std::alloc::Global;
use std::test::Fail;
use version_search::{Candidate, find_candidates};

/// The address of the first word.
pub const START: u32 = 0x10000;

pub fn addi(rd: u8, rs1: u8, imm: i32) -> Line {
    Line::Op(Instr::Imm {
        op: ImmOp::Addi,
        rd,
        rs1,
        imm,
    })
}

pub fn add(rd: u8, rs1: u8, rs2: u8) -> Line {
    Line::Op(Instr::Reg {
        op: RegOp::Add,
        rd,
        rs1,
        rs2,
    })
}

pub fn branch(op: BranchOp, rs1: u8, rs2: u8, label: u32) -> Line {
    Line::BranchTo {
        op,
        rs1,
        rs2,
        label,
    }
}

fn jump(label: u32) -> Line {
    Line::JalTo { rd: 0, label }
}

// They read a byte into x5.
pub fn first_lines() -> [Line; 6] {
    [
        addi(17, 0, 63),
        addi(11, 2, 0),
        addi(12, 0, 1),
        addi(10, 0, 0),
        Line::Op(Instr::Ecall),
        Line::Op(Instr::Load {
            op: LoadOp::Lbu,
            rd: 5,
            rs1: 2,
            offset: 0,
        }),
    ]
}

// They end with what x6 holds.
pub fn last_lines() -> [Line; 3] {
    [addi(10, 6, 0), addi(17, 0, 93), Line::Op(Instr::Ecall)]
}

/// A program: its lines between the first and the last ones, and those of functions behind them; the numbers among its words of the header,
/// the first word of the range and the one behind it; by how much the byte is multiplied, and what is taken off that, to have the
/// difference that its loop begins with.
#[derive(Drop)]
pub struct Looping {
    pub lines: Vec<Line>,
    pub functions: Vec<Line>,
    pub header: u32,
    pub from: u32,
    pub to: u32,
    pub times: i32,
    pub less: i32,
}

/// Counts down to 0; the word in front of the loop leads to it.
pub fn down(alloc: Global) -> Result<Looping, Fail> {
    let lines = [
        addi(6, 0, 0),
        Line::Label(1),
        add(6, 6, 5),
        addi(5, 5, -1),
        branch(BranchOp::Bne, 5, 0, 1),
    ];
    Ok(Looping {
        lines: Vec::from_slice(alloc, &lines)?,
        functions: Vec::new(alloc),
        header: 7,
        from: 7,
        to: 10,
        times: 1,
        less: 0,
    })
}

/// Counts up in steps of two from a number to twice the byte; a jump leads to the test, which stands last.
pub fn up(alloc: Global, first: i32) -> Result<Looping, Fail> {
    let lines = [
        add(5, 5, 5),
        addi(7, 0, first),
        addi(6, 0, 0),
        jump(2),
        Line::Label(1),
        add(6, 6, 7),
        addi(7, 7, 2),
        Line::Label(2),
        branch(BranchOp::Blt, 7, 5, 1),
    ];
    Ok(Looping {
        lines: Vec::from_slice(alloc, &lines)?,
        functions: Vec::new(alloc),
        header: 12,
        from: 10,
        to: 13,
        times: 2,
        less: first,
    })
}

/// A branch goes past the loop, or on to it; the test stands first.
pub fn past(alloc: Global) -> Result<Looping, Fail> {
    let lines = [
        addi(6, 0, 7),
        branch(BranchOp::Beq, 5, 0, 9),
        Line::Label(1),
        branch(BranchOp::Beq, 5, 0, 9),
        add(6, 6, 5),
        addi(5, 5, -1),
        jump(1),
        Line::Label(9),
    ];
    Ok(Looping {
        lines: Vec::from_slice(alloc, &lines)?,
        functions: Vec::new(alloc),
        header: 8,
        from: 8,
        to: 12,
        times: 1,
        less: 0,
    })
}

/// Two branches lead to the loop when taken; it has another way out, and words that aren't its own within its range.
pub fn taken(alloc: Global) -> Result<Looping, Fail> {
    let lines = [
        addi(6, 0, 0),
        addi(8, 0, 100),
        branch(BranchOp::Blt, 0, 5, 1),
        branch(BranchOp::Bge, 5, 0, 1),
        Line::Label(8),
        addi(6, 6, 1),
        jump(9),
        Line::Label(1),
        add(6, 6, 5),
        branch(BranchOp::Blt, 6, 8, 2),
        addi(6, 6, 3),
        jump(9),
        Line::Label(2),
        addi(5, 5, -1),
        branch(BranchOp::Blt, 0, 5, 1),
        Line::Label(9),
    ];
    Ok(Looping {
        lines: Vec::from_slice(alloc, &lines)?,
        functions: Vec::new(alloc),
        header: 12,
        from: 12,
        to: 18,
        times: 1,
        less: 0,
    })
}

/// Counts down from a number that is the same each time.
pub fn constant(alloc: Global) -> Result<Looping, Fail> {
    let lines = [
        addi(6, 0, 0),
        addi(8, 0, 20),
        Line::Label(1),
        add(6, 6, 5),
        addi(8, 8, -1),
        branch(BranchOp::Bne, 8, 0, 1),
    ];
    Ok(Looping {
        lines: Vec::from_slice(alloc, &lines)?,
        functions: Vec::new(alloc),
        header: 8,
        from: 8,
        to: 11,
        times: 1,
        less: 0,
    })
}

/// Counts down to 0; the header calls a function that calls another one, and so does the word behind it.
pub fn calling(alloc: Global) -> Result<Looping, Fail> {
    let lines = [
        addi(6, 0, 0),
        Line::Label(1),
        Line::JalTo { rd: 1, label: 2 },
        Line::JalTo { rd: 1, label: 3 },
        addi(5, 5, -1),
        branch(BranchOp::Bne, 5, 0, 1),
    ];
    let back = Line::Op(Instr::Jalr {
        rd: 0,
        rs1: 1,
        offset: 0,
    });
    let functions = [
        Line::Label(2),
        addi(7, 1, 0),
        Line::JalTo { rd: 1, label: 3 },
        addi(1, 7, 0),
        back,
        Line::Label(3),
        add(6, 6, 5),
        back,
    ];
    Ok(Looping {
        lines: Vec::from_slice(alloc, &lines)?,
        functions: Vec::from_slice(alloc, &functions)?,
        header: 7,
        from: 7,
        to: 11,
        times: 1,
        less: 0,
    })
}

fn lines_of(alloc: Global, program: &Looping) -> Result<Vec<Line>, Fail> {
    let mut lines = Vec::from_slice(alloc, &first_lines())?;
    lines.extend_from_slice(&program.lines)?;
    lines.extend_from_slice(&last_lines())?;
    lines.extend_from_slice(&program.functions)?;
    Ok(lines)
}

/// The image of lines.
pub fn assembled(alloc: Global, lines: &[Line]) -> Result<Vec<u8>, Fail> {
    if lines.len() > 131_072 {
        return Err("there are fewer lines".into());
    }
    match assemble(alloc, lines) {
        Ok(words) if words.len() <= 131_072 => Ok(plain_image(alloc, &words)?),
        _ => Err("the lines have words".into()),
    }
}

/// The image of a program.
pub fn image_of(alloc: Global, program: &Looping) -> Result<Vec<u8>, Fail> {
    let lines = lines_of(alloc, program)?;
    assembled(alloc, &lines)
}

/// The view of an image.
pub fn view_of(alloc: Global, file: &[u8]) -> Result<ImageView<'_>, Fail> {
    match read_image(alloc, file) {
        Ok(view) => Ok(view),
        Err(_) => Err("the file is an image".into()),
    }
}

pub fn graph_of(alloc: Global, view: &ImageView<'_>) -> Result<CodeGraph, Fail> {
    match build_graph(alloc, view) {
        Ok(graph) => Ok(graph),
        Err(_) => Err("the code is accepted".into()),
    }
}

/// The address of a word.
pub fn address_of(word: u32) -> u32 {
    START.wrapping_add(word.wrapping_mul(4))
}

// The note of the program's loop, with a bound of 40.
fn notes_of(alloc: Global, program: &Looping) -> Result<LoopNotes, Fail> {
    let mut items = Vec::new(alloc);
    items.push(Range {
        from: address_of(program.from),
        to: address_of(program.to),
    })?;
    let mut notes = LoopNotes::new(alloc);
    notes.push(LoopNote {
        header: address_of(program.header),
        ranges: RangeList::from_vec(items),
        bound: 40,
        counted: false,
        at_least: 0,
    })?;
    Ok(notes)
}

/// What is proposed for a program.
pub fn candidates_of(
    alloc: Global,
    program: &Looping,
    view: &ImageView<'_>,
) -> Result<Vec<Candidate>, Fail> {
    let graph = graph_of(alloc, view)?;
    let notes = notes_of(alloc, program)?;
    match build_loops(alloc, &graph, &notes) {
        Ok(tree) => Ok(find_candidates(alloc, view, &graph, &tree)?),
        Err(_) => Err("the loops are accepted".into()),
    }
}
