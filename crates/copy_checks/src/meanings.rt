//! What the nodes of a versioned image stand for, by its pieces and sites.

ghost use Rattle.std.specs.Prelude.{◌≡◌, ◌≤◌, ◌<◌, ◌+◌, ◌*◌, ◌^◌, ◌∷◌, [], ℕ, length, Some, IfOk, if◌then◌else◌};
ghost use Rattle.std.specs.List.{cons_option};
ghost use Rattle.loop_versions.specs.Fitting as fitting;
ghost use Rattle.loop_versions.specs.Pieces as code;
ghost use Rattle.graph_runs.specs.KeptSteps as steps;
ghost use Rattle.copy_bounds.specs.Meanings as meanings;
ghost use Rattle.copy_bounds.specs.Meanings.{meaning};
ghost use Rattle.copy_checks.specs.Checked as checked;

use crate::tables::Meant;
use flow_graph::CodeGraph;
use loop_versions::{Piece, Site, origin_of, piece_len};
use scale_base::NoMemory;
use std::alloc::Global;

/// Copied code behind an image: its pieces, the first at the base, and the words of the text that lead to it.
#[derive(Clone, Copy)]
pub struct CopiedCode<'a> {
    pub pieces: &'a [Piece],
    pub sites: &'a [Site],
    pub base: u32,
}

// The piece that an address lies in, of pieces that stand one behind the other from a place on.
fn piece_from(place: u64, pieces: &[Piece], v: u64) -> Option<Piece>
    requires { place + 36 * length pieces.now < 2 ^ 63 }
    ensures { result ≡ meanings.piece_round place pieces.now v }
{
    match pieces {
        [] => None,
        [first, others @ ..] => {
            let behind = place + 4 * u64::from(piece_len(first));
            if place <= v && v < behind {
                Some(*first)
            } else {
                piece_from(behind, others, v)
            }
        }
    }
}

// Of how many instructions at the beginning of a piece no step of the original is made.
fn extra_len(piece: &Piece) -> u32
    ensures len { result ≡ code.extra_len piece.now }
    ensures few { result ≤ 9 }
{
    match piece {
        Piece::Bridge { .. } => 1,
        Piece::Guard { .. } => 9,
        Piece::Entered { .. } => 2,
        _ => 0,
    }
}

// Whether such an instruction stands at an address.
fn in_extra(place: u64, pieces: &[Piece], v: u64) -> bool
    requires { place + 36 * length pieces.now < 2 ^ 63 }
    ensures { result ≡ code.in_extra place pieces.now v }
{
    match pieces {
        [] => false,
        [first, others @ ..] => {
            if place <= v && v < place + 4 * u64::from(extra_len(first)) {
                true
            } else {
                in_extra(place + 4 * u64::from(piece_len(first)), others, v)
            }
        }
    }
}

// Whether a site stands at an address.
fn is_site(sites: &[Site], v: u32) -> bool
    ensures { result ≡ code.is_site sites.now v }
{
    match sites {
        [] => false,
        [first, others @ ..] => first.at == v || is_site(others, v),
    }
}

// The piece that an address lies in: none in front of the base.
fn piece_round(copied: &CopiedCode<'_>, v: u32) -> Option<Piece>
    requires { length copied.now.pieces.now ≤ 4096 }
    ensures { result ≡ meanings.piece_round copied.now.base copied.now.pieces.now v }
{
    if v < copied.base {
        return None;
    }
    piece_from(u64::from(copied.base), copied.pieces, u64::from(v))
}

// Whether no step of the original is made at an address.
fn is_extra(copied: &CopiedCode<'_>, v: u32) -> bool
    requires { length copied.now.pieces.now ≤ 4096 }
    ensures { result ≡ meanings.is_extra copied.now.pieces.now copied.now.sites.now copied.now.base v }
{
    if is_site(copied.sites, v) {
        return true;
    }
    if v < copied.base {
        return false;
    }
    in_extra(u64::from(copied.base), copied.pieces, u64::from(v))
}

// The address behind the call that a piece enters, where an address lies in the copy of what it calls.
fn call_round(piece: &Piece, v: u32) -> Option<u32>
    ensures { fitting.call_round piece.now v ≡ cons_option result [] }
{
    match *piece {
        Piece::Entered { at, to, end } => {
            if to <= v && v < end {
                Some(at.wrapping_add(4))
            } else {
                None
            }
        }
        _ => None,
    }
}

// All of them, the innermost first.
#[tactic(auto, using(crate::proofs::Lists::with_one, crate::proofs::Lists::with_none))]
fn calls_round(alloc: Global, pieces: &[Piece], v: u32) -> Result<Vec<u32>, NoMemory>
    ensures { IfOk result (λ made. made.items ≡ fitting.calls_round pieces.now v) }
{
    match pieces {
        [] => Ok(Vec::new(alloc)),
        [first, others @ ..] => {
            let mut made = calls_round(alloc, others, v)?;
            if let Some(back) = call_round(first, v) {
                made.push(back)?;
            }
            Ok(made)
        }
    }
}

// The return addresses of the inlined calls that an address of a piece lies in.
fn calls_by(
    alloc: Global,
    pieces: &[Piece],
    piece: Option<Piece>,
    v: u32,
) -> Result<Vec<u32>, NoMemory>
    ensures { IfOk result (λ made. made.items ≡ fitting.calls_by piece (fitting.calls_round pieces.now v)) }
{
    match piece {
        None => Ok(Vec::new(alloc)),
        Some(_) => calls_round(alloc, pieces, v),
    }
}

// The address of the text for which an address of a piece stands.
fn origin_by(copied: &CopiedCode<'_>, piece: Option<Piece>, v: u32) -> u32
    ensures { result ≡ fitting.origin_by copied.now.pieces.now copied.now.base piece v }
{
    match piece {
        Some(p) => origin_of(&p),
        None => v,
    }
}

// The address of the call that returns come back behind.
fn call_of(returns: &[u32]) -> Option<u32>
    ensures { result ≡ steps.call_of returns.now }
{
    match returns {
        [] => None,
        [first, ..] => Some(first.wrapping_add(4_294_967_292)),
    }
}

// Where a step of the original comes from that is made at a piece.
fn source_by(piece: Option<Piece>, at: u32, returns: &[u32]) -> Option<u32>
    ensures { result ≡ meanings.source_by piece at returns.now }
{
    match piece {
        Some(Piece::Entered { .. }) => None,
        Some(Piece::Returned { .. }) => call_of(returns),
        _ => Some(at),
    }
}

// A list with one more in front.
fn with_first(alloc: Global, first: u32, others: &[u32]) -> Result<Vec<u32>, NoMemory>
    ensures { IfOk result (λ made. made.items ≡ first ∷ others.now) }
{
    let mut made = Vec::new(alloc);
    made.push(first)?;
    made.extend_from_slice(others)?;
    Ok(made)
}

// A list without its first one.
fn without_first(alloc: Global, returns: &[u32]) -> Result<Option<Vec<u32>>, NoMemory>
    ensures { IfOk result (λ made. checked.opened_items made ≡ meanings.without_first returns.now) }
{
    match returns {
        [] => Ok(None),
        [_, others @ ..] => Ok(Some(others.to_vec(alloc)?)),
    }
}

// The inlined calls that are open behind a step of the original.
fn opened_by(
    alloc: Global,
    piece: Option<Piece>,
    at: u32,
    returns: &[u32],
) -> Result<Option<Vec<u32>>, NoMemory>
    ensures { IfOk result (λ made. checked.opened_items made ≡ meanings.opened_by piece at returns.now) }
{
    match piece {
        Some(Piece::Entered { .. }) => Ok(Some(with_first(alloc, at.wrapping_add(4), returns)?)),
        Some(Piece::Returned { .. }) => without_first(alloc, returns),
        _ => Ok(Some(returns.to_vec(alloc)?)),
    }
}

// The same, of each step.
fn behind_of(
    alloc: Global,
    extra: bool,
    piece: Option<Piece>,
    at: u32,
    returns: &[u32],
) -> Result<Option<Vec<u32>>, NoMemory>
    ensures { IfOk result (λ made. checked.opened_items made ≡
        if extra then Some returns.now else meanings.opened_by piece at returns.now) }
{
    if extra {
        Ok(Some(returns.to_vec(alloc)?))
    } else {
        opened_by(alloc, piece, at, returns)
    }
}

// What an address stands for.
fn meant_at(alloc: Global, copied: &CopiedCode<'_>, v: u32) -> Result<Meant, NoMemory>
    requires { length copied.now.pieces.now ≤ 4096 }
    ensures { IfOk result (λ x. checked.IsMeant (meaning copied.now.pieces.now copied.now.sites.now copied.now.base) v x) }
{
    let piece = piece_round(copied, v);
    let extra = is_extra(copied, v);
    let text_at = origin_by(copied, piece, v);
    let returns = calls_by(alloc, copied.pieces, piece, v)?;
    let behind = behind_of(alloc, extra, piece, text_at, &returns)?;
    let source = source_by(piece, text_at, &returns);
    Ok(Meant {
        text_at,
        is_extra: extra,
        is_own: piece.is_none() && !extra,
        returns,
        behind,
        source,
    })
}

/// What each node of a versioned image stands for.
pub fn meanings_of(
    alloc: Global,
    graph: &CodeGraph,
    copied: &CopiedCode<'_>,
) -> Result<Vec<Meant>, NoMemory>
    requires { length copied.now.pieces.now ≤ 4096 }
    ensures { IfOk result (λ made. checked.AreMeant (meaning copied.now.pieces.now copied.now.sites.now copied.now.base)
        graph.now.code.nodes made.items) }
{
    let mut made = Vec::new(alloc);
    for k in 0..graph.node_count() {
        made.push(meant_at(alloc, copied, graph.node(k))?)?;
    }
    Ok(made)
}
