//! Programs whose loop calls functions, and copies of their loops with the calls inlined.

use crate::programs::{add, addi, address_of, branch, first_lines, last_lines};
use image_maker::Line;
use loop_versions::{Piece, Site, piece_len};
use scale_base::{BranchOp, Instr, LoadOp, StoreOp};
use std::alloc::Global;
use std::test::Fail;

/// Where the first piece stands.
pub const BASE: u32 = 0x11000;

/// A program that reads a byte into x5, counts it down to 0 in a loop, and writes x6: its lines between the first and the last ones; and
/// the pieces of a copy of the loop, where each way that is no address is the number of a piece.
#[derive(Drop)]
pub struct Calling {
    pub lines: Vec<Line>,
    pub pieces: Vec<Piece>,
}

fn call(label: u32) -> Line {
    Line::JalTo { rd: 1, label }
}

fn back() -> Line {
    Line::Op(Instr::Jalr {
        rd: 0,
        rs1: 1,
        offset: 0,
    })
}

// They write the byte in x6, and end with it.
fn writing_lines() -> [Line; 6] {
    [
        Line::Op(Instr::Store {
            op: StoreOp::Sb,
            rs1: 2,
            rs2: 6,
            offset: 0,
        }),
        addi(10, 0, 1),
        addi(11, 2, 0),
        addi(12, 0, 1),
        addi(17, 0, 64),
        Line::Op(Instr::Ecall),
    ]
}

/// The lines of a program, its functions behind the others.
pub fn lines_of(alloc: Global, body: &[Line], functions: &[Line]) -> Result<Vec<Line>, Fail> {
    let mut lines = Vec::from_slice(alloc, &first_lines())?;
    lines.extend_from_slice(body)?;
    lines.extend_from_slice(&writing_lines())?;
    lines.extend_from_slice(&last_lines())?;
    lines.extend_from_slice(functions)?;
    Ok(lines)
}

/// The copy of a word of the text.
pub fn copied(word: u32) -> Piece {
    Piece::Copied {
        at: address_of(word),
    }
}

pub fn branched(word: u32, to: u32) -> Piece {
    Piece::Branched {
        at: address_of(word),
        to,
    }
}

pub fn bridge(word: u32, to: u32) -> Piece {
    Piece::Bridge {
        at: address_of(word),
        to,
    }
}

pub fn entered(word: u32, to: u32, end: u32) -> Piece {
    Piece::Entered {
        at: address_of(word),
        to,
        end,
    }
}

pub fn returned(word: u32, to: u32) -> Piece {
    Piece::Returned {
        at: address_of(word),
        to,
    }
}

// Leads past the loop at a word where the byte isn't below 16.
fn guard(word: u32) -> Piece {
    Piece::Guard {
        at: address_of(word),
        larger: 5,
        smaller: 0,
        limit: 16,
        to: address_of(word),
    }
}

// The address of the piece with a number, or behind the last one.
fn place_of(pieces: &[Piece], number: u32) -> u32 {
    let mut place = BASE;
    let mut left = number;
    for piece in pieces {
        if left == 0 {
            break;
        }
        place = place.wrapping_add(4 * piece_len(piece));
        left -= 1;
    }
    place
}

// A way, where the number of a piece stands for its address.
fn way(pieces: &[Piece], to: u32) -> u32 {
    if to < address_of(0) {
        place_of(pieces, to)
    } else {
        to
    }
}

fn placed_piece(pieces: &[Piece], piece: &Piece) -> Piece {
    match *piece {
        Piece::Branched { at, to } => Piece::Branched {
            at,
            to: way(pieces, to),
        },
        Piece::Bridge { at, to } => Piece::Bridge {
            at,
            to: way(pieces, to),
        },
        Piece::Entered { at, to, end } => Piece::Entered {
            at,
            to: way(pieces, to),
            end: way(pieces, end),
        },
        Piece::Returned { at, to } => Piece::Returned {
            at,
            to: way(pieces, to),
        },
        other => other,
    }
}

/// The pieces with addresses in place of numbers.
pub fn placed(alloc: Global, pieces: &[Piece]) -> Result<Vec<Piece>, Fail> {
    let mut made = Vec::new(alloc);
    for piece in pieces {
        made.push(placed_piece(pieces, piece))?;
    }
    Ok(made)
}

/// The site in front of the loop: the word at 6 leads to the first piece.
pub fn site() -> Site {
    Site {
        at: address_of(6),
        to: BASE,
    }
}

/// The loop calls a function that calls nothing, at words 19 and 20.
pub fn leaf(alloc: Global) -> Result<Calling, Fail> {
    let body = [
        addi(6, 0, 0),
        Line::Label(1),
        call(2),
        addi(5, 5, -1),
        branch(BranchOp::Bne, 5, 0, 1),
    ];
    let pieces = [
        copied(6),
        guard(7),
        entered(7, 6, 8),
        copied(8),
        branched(9, 2),
        bridge(10, address_of(10)),
        copied(19),
        returned(20, 3),
    ];
    Ok(Calling {
        lines: lines_of(alloc, &body, &[Line::Label(2), add(6, 6, 5), back()])?,
        pieces: Vec::from_slice(alloc, &pieces)?,
    })
}

/// The same, with a copy of the function that is left behind its first word.
pub fn left(alloc: Global) -> Result<Calling, Fail> {
    let Calling { lines, mut pieces } = leaf(alloc)?;
    pieces.pop();
    pieces.push(bridge(20, address_of(20)))?;
    Ok(Calling { lines, pieces })
}

/// The loop calls a function at words 19 to 24, which calls another one.
pub fn nested(alloc: Global) -> Result<Calling, Fail> {
    let body = [
        addi(6, 0, 0),
        Line::Label(1),
        call(2),
        addi(5, 5, -1),
        branch(BranchOp::Bne, 5, 0, 1),
    ];
    let functions = [
        Line::Label(2),
        addi(2, 2, -16),
        Line::Op(Instr::Store {
            op: StoreOp::Sw,
            rs1: 2,
            rs2: 1,
            offset: 0,
        }),
        call(3),
        Line::Op(Instr::Load {
            op: LoadOp::Lw,
            rd: 1,
            rs1: 2,
            offset: 0,
        }),
        addi(2, 2, 16),
        back(),
        Line::Label(3),
        add(6, 6, 5),
        back(),
    ];
    let pieces = [
        copied(6),
        guard(7),
        entered(7, 6, 14),
        copied(8),
        branched(9, 2),
        bridge(10, address_of(10)),
        copied(19),
        copied(20),
        entered(21, 12, 14),
        copied(22),
        copied(23),
        returned(24, 3),
        copied(25),
        returned(26, 9),
    ];
    Ok(Calling {
        lines: lines_of(alloc, &body, &functions)?,
        pieces: Vec::from_slice(alloc, &pieces)?,
    })
}

/// The loop calls a function at words 20 and 21 from two places.
pub fn twice(alloc: Global) -> Result<Calling, Fail> {
    let body = [
        addi(6, 0, 0),
        Line::Label(1),
        call(2),
        addi(5, 5, -1),
        call(2),
        branch(BranchOp::Bne, 5, 0, 1),
    ];
    let pieces = [
        copied(6),
        guard(7),
        entered(7, 7, 9),
        copied(8),
        entered(9, 9, 11),
        branched(10, 2),
        bridge(11, address_of(11)),
        copied(20),
        returned(21, 3),
        copied(20),
        returned(21, 5),
    ];
    Ok(Calling {
        lines: lines_of(alloc, &body, &[Line::Label(2), add(6, 6, 5), back()])?,
        pieces: Vec::from_slice(alloc, &pieces)?,
    })
}

/// The loop calls a function at words 19 to 23 that turns three times itself.
pub fn turning(alloc: Global) -> Result<Calling, Fail> {
    let body = [
        addi(6, 0, 0),
        Line::Label(1),
        call(2),
        addi(5, 5, -1),
        branch(BranchOp::Bne, 5, 0, 1),
    ];
    let functions = [
        Line::Label(2),
        addi(7, 0, 3),
        Line::Label(3),
        add(6, 6, 5),
        addi(7, 7, -1),
        branch(BranchOp::Bne, 7, 0, 3),
        back(),
    ];
    let pieces = [
        copied(6),
        guard(7),
        entered(7, 6, 11),
        copied(8),
        branched(9, 2),
        bridge(10, address_of(10)),
        copied(19),
        copied(20),
        copied(21),
        branched(22, 7),
        returned(23, 3),
    ];
    Ok(Calling {
        lines: lines_of(alloc, &body, &functions)?,
        pieces: Vec::from_slice(alloc, &pieces)?,
    })
}
