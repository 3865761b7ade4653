//! What is proposed for a program, and in which order that is tried. Nothing is promised of it.

use code_graph::build_graph;
use elf_image::ImageView;
use loop_file::{LoopNotes, read_loops};
use loop_tree::build_loops;
use loop_versions::Piece;
use scale_base::{NoMemory, Stop};
use std::alloc::Global;
use version_search::{Candidate, find_candidates};

/// So many candidates of a loop or of a read are tried in a round.
const ROUND_OF_LOOP: usize = 2;

// The word in front of which the first guard of a candidate stands: a loop's header, or the word behind a read.
fn header_of(candidate: &Candidate) -> Option<u32> {
    for piece in &candidate.pieces {
        if let Piece::Guard { at, .. } = *piece {
            return Some(at);
        }
    }
    None
}

// Whether each entry of the loop with a header turns as often as another.
fn is_fixed(notes: &LoopNotes, header: u32) -> bool {
    for k in 0..notes.count() {
        let note = notes.note(k);
        if note.header == header && note.at_least == note.bound {
            return true;
        }
    }
    false
}

// Those of the candidates whose loops may turn more often at one entry than at another.
fn varying(
    alloc: Global,
    notes: &LoopNotes,
    candidates: Vec<Candidate>,
) -> Result<Vec<Candidate>, NoMemory> {
    let mut kept = Vec::new(alloc);
    for candidate in candidates {
        if let Some(header) = header_of(&candidate) {
            if !is_fixed(notes, header) {
                kept.push(candidate)?;
            }
        }
    }
    Ok(kept)
}

// What is proposed for an image with a loop file.
fn proposed(alloc: Global, view: &ImageView<'_>, loops: &[u8]) -> Result<Vec<Candidate>, Stop> {
    let graph = build_graph(alloc, view)?;
    let notes = read_loops(alloc, loops, view)?;
    let tree = build_loops(alloc, &graph, &notes)?;
    let candidates = find_candidates(alloc, view, &graph, &tree)?;
    Ok(varying(alloc, &notes, candidates)?)
}

/// What is proposed for an image with a loop file, and nothing where something is refused.
pub fn candidates_of(
    alloc: Global,
    view: &ImageView<'_>,
    loops: &[u8],
) -> Result<Vec<Candidate>, NoMemory> {
    match proposed(alloc, view, loops) {
        Ok(candidates) => Ok(candidates),
        Err(Stop::Refused(_)) => Ok(Vec::new(alloc)),
        Err(Stop::Memory) => Err(NoMemory),
    }
}

// How many of the candidates in front of this one are versions of the same loop or read.
fn earlier(candidates: &[Candidate], i: usize) -> usize {
    let Some(one) = candidates.get(i) else {
        return 0;
    };
    candidates[..i]
        .iter()
        .filter(|other| other.number == one.number)
        .count()
}

/// The numbers of candidates in the order in which they are tried, behind a number of a round: in each round two of a loop or a read.
pub fn order_of(alloc: Global, candidates: &[Candidate]) -> Result<Vec<(usize, usize)>, NoMemory> {
    let mut order = Vec::new(alloc);
    for i in 0..candidates.len() {
        order.push((earlier(candidates, i) / ROUND_OF_LOOP, i))?;
    }
    order.sort()?;
    Ok(order)
}
