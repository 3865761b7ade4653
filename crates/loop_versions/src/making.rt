//! The instructions of pieces.

ghost use Rattle.std.specs.Prelude.{◌≡◌, ◌<◌, ◌+◌, ◌^◌, ◌∷◌, ◌≤◌, [], ℕ, pos, IfOk, length, true, All, Ok};
ghost use Rattle.scale_base.specs.Image.{image_of, is_word_address};
ghost use Rattle.scale_base.specs.declared.instruction.Instr.TheVariants as instr;
ghost use Rattle.scale_base.specs.declared.instruction.BranchOp.TheVariants.{Blt};
ghost use Rattle.scale_base.specs.declared.instruction.ImmOp.TheVariants.{Addi};
ghost use Rattle.loop_versions.specs.declared.pieces.Piece.TheVariants.{Guard};
ghost use Rattle.scale_base.specs.Word.{word_of};
ghost use Rattle.stub_writer.specs.Fragments as fragments;
ghost use Rattle.stub_writer.specs.Stubs as stubs;
ghost use Rattle.image_lower.specs.Trees as trees;
ghost use Rattle.loop_versions.specs.Made as files;
ghost use Rattle.loop_versions.specs.Pieces as code;

use crate::fitting::{distance, jump, piece_len};
use crate::pieces::{Piece, Site};
use code_text::instr_at;
use elf_image::ImageView;
use rv_encode::encode;
use scale_base::{BranchOp, ImmOp, Instr, NoMemory, Patch, RegOp};
use std::alloc::Global;

fn one(alloc: Global, instr: Instr) -> Result<Vec<Instr>, NoMemory>
    ensures { IfOk result (λ made. made.items ≡ instr ∷ []) }
{
    let mut made = Vec::new(alloc);
    made.push(instr)?;
    Ok(made)
}

/// The branch at an address, with the way from a place to another.
fn led(
    alloc: Global,
    view: &ImageView<'_>,
    place: u32,
    at: u32,
    to: u32,
) -> Result<Vec<Instr>, NoMemory>
    requires image { image_of view.now.file ≡ Ok view.now }
    requires word { is_word_address view.now at ≡ true }
    ensures { IfOk result (λ made. made.items ≡ code.led place to (code.read view.now at)) }
{
    match instr_at(view, at) {
        Some(Instr::Branch { op, rs1, rs2, .. }) => {
            let offset = distance(place, to);
            one(
                alloc,
                Instr::Branch {
                    op,
                    rs1,
                    rs2,
                    offset,
                },
            )
        }
        _ => Ok(Vec::new(alloc)),
    }
}

/// The instruction at an address.
fn copied(alloc: Global, view: &ImageView<'_>, at: u32) -> Result<Vec<Instr>, NoMemory>
    requires image { image_of view.now.file ≡ Ok view.now }
    requires word { is_word_address view.now at ≡ true }
    ensures { IfOk result (λ made. made.items ≡ code.copied (code.read view.now at)) }
{
    match instr_at(view, at) {
        Some(instr) => one(alloc, instr),
        None => Ok(Vec::new(alloc)),
    }
}

/// The guard's instructions before its branch, without the limit: of the difference and back.
fn with_smaller(op: RegOp, larger: u8, smaller: u8) -> Instr
    ensures { result ≡ instr.Reg op larger larger smaller }
{
    Instr::Reg {
        op,
        rd: larger,
        rs1: larger,
        rs2: smaller,
    }
}

fn with_number(larger: u8, imm: i32) -> Instr
    ensures { result ≡ instr.Imm Addi larger larger imm }
{
    Instr::Imm {
        op: ImmOp::Addi,
        rd: larger,
        rs1: larger,
        imm,
    }
}

/// Four instructions on, where the register is negative.
fn if_negative(larger: u8) -> Instr
    ensures { result ≡ instr.Branch Blt larger 0 (pos 16) }
{
    Instr::Branch {
        op: BranchOp::Blt,
        rs1: larger,
        rs2: 0,
        offset: 16,
    }
}

/// The instructions of a guard at a place; none of another piece.
fn guard_code(alloc: Global, place: u32, piece: &Piece) -> Result<Vec<Instr>, NoMemory>
    requires { place + 36 < 2 ^ 32 }
    ensures { IfOk result (λ made. (at larger smaller limit to : ℕ) → piece.now ≡ Guard at larger smaller limit to
        → made.items ≡ code.guard_code place larger smaller limit to) }
{
    let mut made = Vec::new(alloc);
    if let Piece::Guard {
        larger,
        smaller,
        limit,
        to,
        ..
    } = *piece
    {
        let back = i32::from(limit);
        made.push(with_smaller(RegOp::Sub, larger, smaller))?;
        made.push(if_negative(larger))?;
        made.push(with_number(larger, -1 - i32::from(limit.saturating_sub(1))))?;
        made.push(if_negative(larger))?;
        made.push(with_number(larger, back))?;
        made.push(with_smaller(RegOp::Add, larger, smaller))?;
        made.push(jump(place + 24, to))?;
        made.push(with_number(larger, back))?;
        made.push(with_smaller(RegOp::Add, larger, smaller))?;
    }
    Ok(made)
}

fn upper_part(c: u32) -> u32
    ensures { result ≡ fragments.hi c }
{
    c.wrapping_add(0x800) / 4096 * 4096
}

fn lower_part(c: u32) -> i32
    ensures { result ≡ fragments.lo c }
{
    let low = (c % 4096) as i32;
    if low < 2048 { low } else { low - 4096 }
}

/// The address behind a call, put into x1, and a jump.
fn enter_code(alloc: Global, place: u32, at: u32, to: u32) -> Result<Vec<Instr>, NoMemory>
    requires { place + 36 < 2 ^ 32 }
    ensures { IfOk result (λ made. made.items ≡ code.enter_code place at to) }
{
    let back = at.wrapping_add(4);
    let made = [
        Instr::Lui {
            rd: 1,
            imm: upper_part(back),
        },
        Instr::Imm {
            op: ImmOp::Addi,
            rd: 1,
            rs1: 1,
            imm: lower_part(back),
        },
        jump(place + 8, to),
    ];
    Ok(Vec::from_array(alloc, made)?)
}

/// The instructions of a piece at a place.
pub fn piece_code(
    alloc: Global,
    view: &ImageView<'_>,
    place: u32,
    piece: &Piece,
) -> Result<Vec<Instr>, NoMemory>
    requires image { image_of view.now.file ≡ Ok view.now }
    requires word { is_word_address view.now (code.origin_of piece.now) ≡ true }
    requires room { place + 36 < 2 ^ 32 }
    ensures { IfOk result (λ made. made.items ≡ code.piece_code view.now place piece.now) }
{
    match *piece {
        Piece::Copied { at } => copied(alloc, view, at),
        Piece::Branched { at, to } => led(alloc, view, place, at, to),
        Piece::Jumped { to, .. } => one(alloc, jump(place, to)),
        Piece::Bridge { to, .. } => one(alloc, jump(place, to)),
        Piece::Guard { .. } => guard_code(alloc, place, piece),
        Piece::Entered { at, to, .. } => enter_code(alloc, place, at, to),
        Piece::Returned { to, .. } => one(alloc, jump(place, to)),
    }
}

/// The instructions of pieces that stand one behind the other from a base on.
pub fn pieces_code(
    alloc: Global,
    view: &ImageView<'_>,
    base: u32,
    pieces: &[Piece],
) -> Result<Vec<Instr>, NoMemory>
    requires image { image_of view.now.file ≡ Ok view.now }
    requires words { All (λ p. is_word_address view.now (code.origin_of p) ≡ true) pieces.now }
    requires few { length pieces.now ≤ 4096 }
    requires room { base + 147492 < 2 ^ 32 }
    ensures { IfOk result (λ made. made.items ≡ code.pieces_code view.now base pieces.now) }
{
    let mut made = Vec::new(alloc);
    let mut place = base;
    for piece in pieces {
        let part = piece_code(alloc, view, place, piece)?;
        made.extend_from_slice(&part)?;
        place += 4 * piece_len(piece);
    }
    Ok(made)
}

/// Each site becomes a jump to its piece.
pub fn site_patches(alloc: Global, sites: &[Site]) -> Result<Vec<Patch>, NoMemory>
    requires { All (λ s. trees.fits (stubs.jump s.at s.to) ≡ true) sites.now }
    ensures { IfOk result (λ patches. patches.items ≡ files.site_patches sites.now) }
{
    let mut patches = Vec::new(alloc);
    for site in sites {
        let word = jump_word(site.at, site.to);
        patches.push(Patch { at: site.at, word })?;
    }
    Ok(patches)
}

/// The word of a jump that fits.
#[tactic(auto, using(crate::proofs::Reach::jump_fields))]
fn jump_word(from: u32, to: u32) -> u32
    requires { trees.fits (stubs.jump from to) ≡ true }
    ensures { result ≡ word_of (stubs.jump from to) }
{
    match encode(&jump(from, to)) {
        Some(word) => word,
        None => 0,
    }
}
