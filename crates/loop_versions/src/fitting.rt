//! Which pieces and sites fit a text.

ghost use Rattle.std.specs.Prelude.{◌≡◌, ◌≤◌, ◌<◌, ◌+◌, ◌*◌, ◌^◌, ◌&&◌, length, true, Ok, IfOk};
ghost use Rattle.scale_base.specs.Image.{image_of, is_word_address};
ghost use Rattle.rv_encode.specs.Jumps as jumps;
ghost use Rattle.stub_writer.specs.Stubs as stubs;
ghost use Rattle.image_lower.specs.Trees as trees;
ghost use Rattle.loop_versions.specs.Pieces as code;
ghost use Rattle.loop_versions.specs.Fitting as fitting;

use crate::calls::{begins, begins_behind, calls_at, stays_in};
use crate::pieces::{Piece, Site};
use code_text::{instr_at, moved};
use elf_image::ImageView;
use rv_encode::jal_fits;
use scale_base::{Instr, NoMemory};
use std::alloc::Global;

/// The address of the instruction of the text for which a piece stands.
pub fn origin_of(piece: &Piece) -> u32
    ensures { result ≡ code.origin_of piece.now }
{
    match *piece {
        Piece::Copied { at } => at,
        Piece::Branched { at, .. } => at,
        Piece::Jumped { at, .. } => at,
        Piece::Bridge { at, .. } => at,
        Piece::Guard { at, .. } => at,
        Piece::Entered { at, .. } => at,
        Piece::Returned { at, .. } => at,
    }
}

/// The number of its instructions.
pub fn piece_len(piece: &Piece) -> u32
    ensures len { result ≡ code.piece_len piece.now }
    ensures few { result ≤ 9 }
{
    match piece {
        Piece::Guard { .. } => 9,
        Piece::Entered { .. } => 3,
        _ => 1,
    }
}

/// The piece that begins at an address, of pieces that stand one behind the other from a place on.
pub fn piece_at(place: u64, pieces: &[Piece], v: u64) -> Option<Piece>
    requires { place + 36 * length pieces.now < 2 ^ 63 }
    ensures { result ≡ code.piece_at place pieces.now v }
{
    match pieces {
        [] => None,
        [first, others @ ..] => {
            if v == place {
                Some(*first)
            } else {
                let behind = place + 4 * u64::from(piece_len(first));
                piece_at(behind, others, v)
            }
        }
    }
}

/// The site at an address.
pub fn site_at(sites: &[Site], v: u64) -> Option<Site>
    ensures { result ≡ code.site_at sites.now v }
{
    match sites {
        [] => None,
        [first, others @ ..] => {
            if v == u64::from(first.at) {
                Some(*first)
            } else {
                site_at(others, v)
            }
        }
    }
}

/// An instruction that doesn't read the pc, and behind which the next one follows, if any does.
fn is_plain(instr: Option<Instr>) -> bool
    ensures { result ≡ fitting.is_plain instr }
{
    match instr {
        None => false,
        Some(Instr::Auipc { .. }) => false,
        Some(Instr::Jal { .. }) => false,
        Some(Instr::Jalr { .. }) => false,
        Some(Instr::Branch { .. }) => false,
        Some(Instr::Ebreak) => false,
        Some(_) => true,
    }
}

/// The address for which an address stands.
pub fn origin(pieces: &[Piece], base: u32, v: u64) -> u64
    requires { length pieces.now ≤ 4096 }
    ensures { result ≡ fitting.origin pieces.now base v }
{
    match piece_at(u64::from(base), pieces, v) {
        Some(piece) => u64::from(origin_of(&piece)),
        None => v,
    }
}

/// Whether an address stands for another.
pub fn stands_for(pieces: &[Piece], base: u32, v: u64, at: u64) -> bool
    requires { length pieces.now ≤ 4096 }
    ensures { result ≡ fitting.stands_for pieces.now base v at }
{
    origin(pieces, base, v) == at
}

/// Pieces that stand one behind the other behind an image, the first at the base.
#[derive(Clone, Copy)]
pub struct Block<'a> {
    pub view: &'a ImageView<'a>,
    pub pieces: &'a [Piece],
    pub base: u32,
}

/// The target of a jump is a word of the text, and a way leads to what stands for it.
pub fn leads_to(block: &Block<'_>, to: u32, target: u32) -> bool
    requires { length block.now.pieces.now ≤ 4096 }
    ensures { result ≡ fitting.leads_to block.now.view.now block.now.pieces.now block.now.base to target }
{
    block.view.is_text_word(target)
        && stands_for(block.pieces, block.base, u64::from(to), u64::from(target))
}

/// The register numbers and the limit of a guard.
pub fn is_guard(larger: u8, smaller: u8, limit: u16) -> bool
    ensures { result ≡ fitting.is_guard larger smaller limit }
{
    0 < larger && larger < 32 && smaller < 32 && larger != smaller && 0 < limit && limit < 2048
}

/// Whether the `jal x0` at an address leads to what `to` stands for.
pub fn is_jump_right(block: &Block<'_>, at: u32, to: u32) -> bool
    requires few { length block.now.pieces.now ≤ 4096 }
    requires image { image_of block.now.view.now.file ≡ Ok block.now.view.now }
    requires word { is_word_address block.now.view.now at ≡ true }
    ensures { result ≡ fitting.is_jump_right block.now.view.now block.now.pieces.now block.now.base at to
        (code.read block.now.view.now at) }
{
    match instr_at(block.view, at) {
        Some(Instr::Jal { rd, offset }) => { rd == 0 && leads_to(block, to, moved(at, offset)) }
        _ => false,
    }
}

/// Whether the instruction at an address may be copied to a place.
pub fn is_copy_right(
    alloc: Global,
    block: &Block<'_>,
    place: u64,
    at: u32,
) -> Result<bool, NoMemory>
    requires few { length block.now.pieces.now ≤ 4096 }
    requires place { place < 2 ^ 36 }
    requires image { image_of block.now.view.now.file ≡ Ok block.now.view.now }
    requires word { is_word_address block.now.view.now at ≡ true }
    ensures { IfOk result (λ fit. fit ≡ fitting.is_copy_right block.now.view.now block.now.pieces.now block.now.base place at
        (code.read block.now.view.now at)) }
{
    let leads = is_plain(instr_at(block.view, at))
        && stands_for(block.pieces, block.base, place + 4, u64::from(at) + 4);
    if !leads {
        return Ok(false);
    }
    stays_in(alloc, block.pieces, block.base, place, place + 4)
}

/// Whether the branch at an address leads from a place to what its two ways stand for.
pub fn is_branch_right(block: &Block<'_>, place: u32, at: u32, to: u32) -> bool
    requires few { length block.now.pieces.now ≤ 4096 }
    requires image { image_of block.now.view.now.file ≡ Ok block.now.view.now }
    requires word { is_word_address block.now.view.now at ≡ true }
    ensures { result ≡ fitting.is_branch_right block.now.view.now block.now.pieces.now block.now.base place at to
        (code.read block.now.view.now at) }
{
    match instr_at(block.view, at) {
        Some(Instr::Branch { offset, .. }) => {
            leads_to(block, to, moved(at, offset))
                && stands_for(
                    block.pieces,
                    block.base,
                    u64::from(place) + 4,
                    u64::from(at) + 4,
                )
                && is_branch_offset(distance(place, to))
        }
        _ => false,
    }
}

/// Whether the `jal x1` at an address leads to what `to` stands for, with this call alone opened.
pub fn is_call_right(
    alloc: Global,
    block: &Block<'_>,
    place: u32,
    at: u32,
    to: u32,
) -> Result<bool, NoMemory>
    requires few { length block.now.pieces.now ≤ 4096 }
    requires image { image_of block.now.view.now.file ≡ Ok block.now.view.now }
    requires word { is_word_address block.now.view.now at ≡ true }
    ensures { IfOk result (λ fit. fit ≡ fitting.is_call_right block.now.view.now block.now.pieces.now block.now.base place at to
        (code.read block.now.view.now at)) }
{
    match instr_at(block.view, at) {
        Some(Instr::Jal { rd, offset }) => {
            if !(rd == 1 && leads_to(block, to, moved(at, offset))) {
                return Ok(false);
            }
            let there = calls_at(alloc, block.pieces, block.base, u64::from(to))?;
            let here = calls_at(alloc, block.pieces, block.base, u64::from(place))?;
            Ok(begins_behind(&there, at.wrapping_add(4), &here))
        }
        _ => Ok(false),
    }
}

/// Whether a way leads behind the innermost of some calls, where the others alone are open.
pub fn is_back(alloc: Global, block: &Block<'_>, to: u32, calls: &[u32]) -> Result<bool, NoMemory>
    requires { length block.now.pieces.now ≤ 4096 }
    ensures { IfOk result (λ fit. fit ≡ fitting.is_back block.now.view.now block.now.pieces.now block.now.base to calls.now) }
{
    match calls {
        [] => Ok(false),
        [back, others @ ..] => {
            if !leads_to(block, to, *back) {
                return Ok(false);
            }
            let there = calls_at(alloc, block.pieces, block.base, u64::from(to))?;
            Ok(begins(&there, others))
        }
    }
}

/// Whether an instruction is a return.
fn is_return(instr: Option<Instr>) -> bool
    ensures { result ≡ fitting.is_return instr }
{
    match instr {
        Some(Instr::Jalr { rd, rs1, offset }) => rd == 0 && rs1 == 1 && offset == 0,
        _ => false,
    }
}

/// Whether the return at an address leads behind the innermost of the inlined calls that are open at a place.
pub fn is_return_right(
    alloc: Global,
    block: &Block<'_>,
    place: u32,
    at: u32,
    to: u32,
) -> Result<bool, NoMemory>
    requires few { length block.now.pieces.now ≤ 4096 }
    requires image { image_of block.now.view.now.file ≡ Ok block.now.view.now }
    requires word { is_word_address block.now.view.now at ≡ true }
    ensures { IfOk result (λ fit. fit ≡ fitting.is_return_right block.now.view.now block.now.pieces.now block.now.base place to
        (code.read block.now.view.now at)) }
{
    if !is_return(instr_at(block.view, at)) {
        return Ok(false);
    }
    let here = calls_at(alloc, block.pieces, block.base, u64::from(place))?;
    is_back(alloc, block, to, &here)
}

/// How far a jump goes.
pub fn distance(from: u32, to: u32) -> i32
    ensures { result ≡ jumps.distance from to }
{
    to.wrapping_sub(from).cast_signed()
}

/// `jal x0` from an address to another.
pub fn jump(from: u32, to: u32) -> Instr
    ensures { result ≡ stubs.jump from to }
{
    Instr::Jal {
        rd: 0,
        offset: distance(from, to),
    }
}

/// Whether a `jal x0` reaches from an address to another.
#[tactic(auto, using(crate::proofs::Reach::jump_fits_as))]
pub fn fits_jump(from: u32, to: u32) -> bool
    ensures { result ≡ trees.fits (stubs.jump from to) }
{
    jal_fits(from, to)
}

/// Whether a branch can have an offset.
pub fn is_branch_offset(offset: i32) -> bool
    ensures { result ≡ fitting.is_branch_offset offset }
{
    offset % 2 == 0 && offset >= -4096 && offset < 4096
}

/// The registers that a guard compares, and the limit of their difference.
#[derive(Clone, Copy)]
struct Compared {
    larger: u8,
    smaller: u8,
    limit: u16,
}

/// Whether the ways of a guard at a place lead to what stands for its instruction.
fn is_guard_right(block: &Block<'_>, place: u32, at: u32, compared: Compared, to: u32) -> bool
    requires few { length block.now.pieces.now ≤ 4096 }
    requires room { place + 36 < 2 ^ 32 }
    ensures { result ≡ fitting.is_guard_right block.now.pieces.now block.now.base place at compared.larger compared.smaller compared.limit
        to }
{
    is_guard(compared.larger, compared.smaller, compared.limit)
        && stands_for(
            block.pieces,
            block.base,
            u64::from(place) + 36,
            u64::from(at),
        )
        && stands_for(block.pieces, block.base, u64::from(to), u64::from(at))
        && fits_jump(place + 24, to)
}

/// Whether a piece at a place leads on to what stands for the next instructions.
pub fn is_right(
    alloc: Global,
    block: &Block<'_>,
    place: u32,
    piece: &Piece,
) -> Result<bool, NoMemory>
    requires few { length block.now.pieces.now ≤ 4096 }
    requires image { image_of block.now.view.now.file ≡ Ok block.now.view.now }
    requires word { is_word_address block.now.view.now (code.origin_of piece.now) ≡ true }
    requires room { place + 36 < 2 ^ 32 }
    ensures { IfOk result (λ fit. fit ≡ fitting.is_right block.now.view.now block.now.pieces.now block.now.base place piece.now) }
{
    let from = u64::from(place);
    match *piece {
        Piece::Copied { at } => is_copy_right(alloc, block, from, at),
        Piece::Branched { at, to } => {
            if !is_branch_right(block, place, at, to) {
                return Ok(false);
            }
            if !stays_in(alloc, block.pieces, block.base, from, from + 4)? {
                return Ok(false);
            }
            stays_in(alloc, block.pieces, block.base, from, u64::from(to))
        }
        Piece::Jumped { at, to } => {
            if !(is_jump_right(block, at, to) && fits_jump(place, to)) {
                return Ok(false);
            }
            stays_in(alloc, block.pieces, block.base, from, u64::from(to))
        }
        Piece::Bridge { at, to } => {
            if !(stands_for(block.pieces, block.base, u64::from(to), u64::from(at))
                && fits_jump(place, to))
            {
                return Ok(false);
            }
            stays_in(alloc, block.pieces, block.base, from, u64::from(to))
        }
        Piece::Guard {
            at,
            larger,
            smaller,
            limit,
            to,
        } => {
            let compared = Compared {
                larger,
                smaller,
                limit,
            };
            if !is_guard_right(block, place, at, compared, to) {
                return Ok(false);
            }
            if !stays_in(alloc, block.pieces, block.base, from, from + 36)? {
                return Ok(false);
            }
            stays_in(alloc, block.pieces, block.base, from, u64::from(to))
        }
        Piece::Entered { at, to, .. } => {
            if !is_call_right(alloc, block, place, at, to)? {
                return Ok(false);
            }
            Ok(fits_jump(place + 8, to))
        }
        Piece::Returned { at, to } => {
            if !is_return_right(alloc, block, place, at, to)? {
                return Ok(false);
            }
            Ok(fits_jump(place, to))
        }
    }
}

/// Whether no more than so many bridges, guards and sites stand on each way from an address.
#[tactic(auto, using(crate::proofs::Free::free_step))]
pub fn is_free(pieces: &[Piece], sites: &[Site], base: u32, left: u32, v: u64) -> bool
    requires few { length pieces.now ≤ 4096 }
    requires room { v + 36 * left < 2 ^ 40 }
    ensures { result ≡ fitting.is_free (fitting.ways pieces.now sites.now base) left v }
{
    if left == 0 {
        return false;
    }
    match piece_at(u64::from(base), pieces, v) {
        Some(Piece::Bridge { to, .. }) => is_free(pieces, sites, base, left - 1, u64::from(to)),
        Some(Piece::Guard { to, .. }) => {
            is_free(pieces, sites, base, left - 1, v + 36)
                && is_free(pieces, sites, base, left - 1, u64::from(to))
        }
        Some(_) => true,
        None => match site_at(sites, v) {
            Some(site) => is_free(pieces, sites, base, left - 1, u64::from(site.to)),
            None => true,
        },
    }
}
