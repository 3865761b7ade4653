//! The inlined calls that are open at an address.

ghost use Rattle.std.specs.Prelude.{◌≡◌, ◌≤◌, ◌∷◌, [], length, IfOk};
ghost use Rattle.std.specs.List.{cons_option};
ghost use Rattle.loop_versions.specs.Fitting as fitting;

use crate::fitting::piece_at;
use crate::pieces::Piece;
use scale_base::NoMemory;
use std::alloc::Global;

/// The address behind the call that a piece enters, where an address lies in the copy of what it calls.
fn call_round(piece: &Piece, v: u64) -> Option<u32>
    ensures { fitting.call_round piece.now v ≡ cons_option result [] }
{
    match *piece {
        Piece::Entered { at, to, end } => {
            if u64::from(to) <= v && v < u64::from(end) {
                Some(at.wrapping_add(4))
            } else {
                None
            }
        }
        _ => None,
    }
}

/// All of them, the innermost first.
#[tactic(auto, using(crate::proofs::OpenCalls::with_one, crate::proofs::OpenCalls::with_none))]
fn calls_round(alloc: Global, pieces: &[Piece], v: u64) -> Result<Vec<u32>, NoMemory>
    ensures { IfOk result (λ made. made.items ≡ fitting.calls_round pieces.now v) }
{
    match pieces {
        [] => Ok(Vec::new(alloc)),
        [first, others @ ..] => {
            let mut made = calls_round(alloc, others, v)?;
            if let Some(back) = call_round(first, v) {
                made.push(back)?;
            }
            Ok(made)
        }
    }
}

/// The return addresses of the inlined calls that an address lies in: none of one that isn't that of a piece.
pub fn calls_at(alloc: Global, pieces: &[Piece], base: u32, v: u64) -> Result<Vec<u32>, NoMemory>
    requires { length pieces.now ≤ 4096 }
    ensures { IfOk result (λ made. made.items ≡ fitting.calls_at pieces.now base v) }
{
    match piece_at(u64::from(base), pieces, v) {
        None => Ok(Vec::new(alloc)),
        Some(_) => calls_round(alloc, pieces, v),
    }
}

/// Whether a list begins with another one.
pub fn begins(xs: &[u32], ys: &[u32]) -> bool
    ensures { result ≡ fitting.begins xs.now ys.now }
{
    match xs {
        [] => true,
        [x, others @ ..] => match ys {
            [] => false,
            [y, rest @ ..] => *x == *y && begins(others, rest),
        },
    }
}

/// The same, with one more in front.
pub fn begins_behind(xs: &[u32], back: u32, ys: &[u32]) -> bool
    ensures { result ≡ fitting.begins xs.now (back ∷ ys.now) }
{
    match xs {
        [] => true,
        [x, others @ ..] => *x == back && begins(others, ys),
    }
}

/// Where a way leads from a place, whether no other inlined calls are open than those at the place.
pub fn stays_in(
    alloc: Global,
    pieces: &[Piece],
    base: u32,
    place: u64,
    to: u64,
) -> Result<bool, NoMemory>
    requires { length pieces.now ≤ 4096 }
    ensures { IfOk result (λ fit. fit ≡ fitting.stays_in pieces.now base place to) }
{
    let there = calls_at(alloc, pieces, base, to)?;
    let here = calls_at(alloc, pieces, base, place)?;
    Ok(begins(&there, &here))
}
