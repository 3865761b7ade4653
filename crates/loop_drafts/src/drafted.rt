//! A drafted loop file, in pieces, and the file as it is printed and as it is read.

ghost use Rattle.std.specs.Prelude.{◌≡◌, ◌++◌, IfOk, OnOk, string_bytes, count_by};
ghost use Rattle.loop_drafts.specs.Pieces.{bound_line, filled_piece, printed, filled};

use crate::trusting::Trust;
use scale_base::NoMemory;
use std::alloc::{AllocError, Global};
use std::fmt::Write;

/// A piece of a drafted loop file: the text of a loop, or what stands before the loops. It ends with a line feed. Where it is open, its loop has no bound,
/// and the line of one may follow.
#[derive(Drop)]
pub struct Piece {
    pub text: String,
    pub is_open: bool,
}

/// A drafted loop file: its pieces, how many loops it has, how many of them with a bound that the code shows and how many without one, how many parts of the
/// code turn that are no loops, since they are entered at several places, whether the code shows that each return goes back to its call, and what is trusted
/// for that and for bounds.
#[derive(Drop)]
pub struct LoopDraft {
    pub pieces: Vec<Piece>,
    pub loops: usize,
    pub proved: usize,
    pub unbounded: usize,
    pub aside: usize,
    pub returns: bool,
    pub trust: Trust,
}

/// How many pieces are open.
pub fn count_open(pieces: &[Piece]) -> usize
    ensures { result ≡ count_by (λ piece. piece.is_open) pieces.now }
{
    pieces.iter().filter(|piece| piece.is_open).count()
}

/// How many bytes the pieces have.
pub fn byte_count(pieces: &[Piece]) -> usize {
    let mut count: usize = 0;
    for piece in pieces {
        count = count.saturating_add(piece.text.len());
    }
    count
}

/// The file as it is printed, in which the loops of open pieces have no bound.
pub fn printed_text(alloc: Global, pieces: &[Piece]) -> Result<String, NoMemory>
    ensures { IfOk result (λ text. string_bytes text ≡ printed pieces.now) }
{
    let mut text = String::new(alloc);
    for piece in pieces {
        text.push_str(piece.text.as_str())?;
    }
    Ok(text)
}

// Adds the line of a bound.
fn push_bound(text: &mut String, bound: u32) -> Result<(), AllocError>
    ensures { OnOk result (string_bytes text.new ≡ string_bytes text.old ++ bound_line bound) }
{
    write!(text, "bound = {bound}\n")
}

// Adds a piece, with a bound where its own is missing.
fn push_filled(text: &mut String, piece: &Piece, bound: u32) -> Result<(), AllocError>
    ensures { OnOk result (string_bytes text.new ≡ string_bytes text.old ++ filled_piece bound piece.now) }
{
    text.push_str(piece.text.as_str())?;
    if piece.is_open {
        push_bound(text, bound)?;
    }
    Ok(())
}

/// The file with one bound for all loops that have none.
pub fn filled_text(alloc: Global, pieces: &[Piece], bound: u32) -> Result<String, NoMemory>
    ensures { IfOk result (λ text. string_bytes text ≡ filled bound pieces.now) }
{
    let mut text = String::new(alloc);
    for piece in pieces {
        push_filled(&mut text, piece, bound)?;
    }
    Ok(text)
}
