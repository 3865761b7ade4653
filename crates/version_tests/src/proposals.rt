//! What is proposed.

use crate::programs::{
    Looping, calling, candidates_of, constant, down, image_of, past, taken, up, view_of,
};
use loop_versions::Piece;
use std::alloc::{AllocError, Global};
use std::fmt::Write;
use std::test::Fail;
use version_search::Candidate;

fn push_candidate(text: &mut String, candidate: &Candidate) -> Result<(), AllocError> {
    let Candidate {
        larger,
        smaller,
        limit,
        ..
    } = candidate;
    let pieces = candidate.pieces.len();
    let sites = candidate.sites.len();
    write!(text, "x{larger}-x{smaller}<{limit}:{pieces},{sites} ")?;
    Ok(())
}

fn proposed(alloc: Global, program: &Looping) -> Result<String, Fail> {
    let file = image_of(alloc, program)?;
    let view = view_of(alloc, &file)?;
    let mut text = String::new(alloc);
    for candidate in &candidates_of(alloc, program, &view)? {
        push_candidate(&mut text, candidate)?;
    }
    Ok(text)
}

#[test]
fn limits_are_parts_of_the_bound(rt: HostRuntime) -> Result<(), Fail> {
    let alloc = rt.alloc();
    let down = proposed(alloc, &down(alloc)?)?;
    assert_eq!(rt; down.as_str(), "x5-x0<23:6,1 x5-x0<13:6,1 ");
    let up = proposed(alloc, &up(alloc, 0)?)?;
    assert_eq!(rt; up.as_str(), "x5-x7<45:7,1 x5-x7<25:7,1 ");
    let past = proposed(alloc, &past(alloc)?)?;
    assert_eq!(rt; past.as_str(), "x5-x0<23:7,1 x5-x0<13:7,1 ");
    let taken = proposed(alloc, &taken(alloc)?)?;
    assert_eq!(rt; taken.as_str(), "x5-x0<23:14,2 x5-x0<13:14,2 ");
    Ok(())
}

// The calls that the copy of a candidate enters, and its returns.
fn calls_of(candidate: &Candidate) -> (usize, usize) {
    let pieces = &candidate.pieces;
    let entered = pieces
        .iter()
        .filter(|piece| matches!(piece, Piece::Entered { .. }));
    let returned = pieces
        .iter()
        .filter(|piece| matches!(piece, Piece::Returned { .. }));
    (entered.count(), returned.count())
}

#[test]
fn calls_are_inlined(rt: HostRuntime) -> Result<(), Fail> {
    let alloc = rt.alloc();
    let program = calling(alloc)?;
    let file = image_of(alloc, &program)?;
    let view = view_of(alloc, &file)?;
    let candidates = candidates_of(alloc, &program, &view)?;
    assert!(rt; !candidates.is_empty());
    for candidate in &candidates {
        assert_eq!(rt; calls_of(candidate), (3, 3));
    }
    Ok(())
}

#[test]
fn constant_counts_have_no_versions(rt: HostRuntime) -> Result<(), Fail> {
    let alloc = rt.alloc();
    let none = proposed(alloc, &constant(alloc)?)?;
    assert_eq!(rt; none.as_str(), "");
    Ok(())
}
