//! Runs of images with versions: they end as those of the originals, and take the copy where the counter is below the limit.

use crate::programs::{
    Looping, address_of, calling, candidates_of, down, graph_of, image_of, past, taken, up, view_of,
};
use elf_image::ImageView;
use flat_memory::{ListMemory, load_list};
use loop_versions::{Piece, piece_len};
use rv_machine::{Machine, StepEnd, World, step};
use std::alloc::Global;
use std::process::Abort;
use std::test::Fail;
use version_search::Candidate;
use versioned_images::versioned;

/// How a run ends: its status, or none where it doesn't end so; and whether it came to an address.
#[derive(Clone, Copy, PartialEq, Eq, Debug)]
struct Ended {
    status: Option<u8>,
    met: bool,
}

/// A machine with the image, and a byte to read.
pub fn started(alloc: Global, view: &ImageView<'_>, byte: u8) -> Result<Machine<ListMemory>, Fail> {
    let memory = load_list(alloc, view)?;
    let input = Vec::from_slice(alloc, &[byte])?;
    Ok(Machine::start(alloc, memory, view.entry(), 3, 2, input)?)
}

fn run(alloc: Global, file: &[u8], byte: u8, at: u32) -> Result<Ended, Fail> {
    let view = view_of(alloc, file)?;
    let mut machine = started(alloc, &view, byte)?;
    let mut met = false;
    for _ in 0..4000 {
        met = met || machine.pc == at;
        match step(&mut machine) {
            StepEnd::Went(_) => {}
            StepEnd::Exited(_, status) => {
                return Ok(Ended {
                    status: Some(status),
                    met,
                });
            }
            _ => break,
        }
    }
    Ok(Ended { status: None, met })
}

/// The status with which a run on a byte ends.
pub fn status_of(alloc: Global, file: &[u8], byte: u8) -> Result<Option<u8>, Fail> {
    Ok(run(alloc, file, byte, 0)?.status)
}

// The image with a candidate's pieces and sites.
fn made_of(alloc: Global, view: &ImageView<'_>, candidate: &Candidate) -> Result<Vec<u8>, Fail> {
    match versioned(alloc, view, &candidate.pieces, &candidate.sites)? {
        Some(made) => Ok(made.file),
        None => Err("the pieces fit".into()),
    }
}

// Where the copy of an instruction stands.
fn copy_of(candidate: &Candidate, wanted: u32) -> u32 {
    let mut place = candidate.base;
    for piece in &candidate.pieces {
        match *piece {
            Piece::Copied { at }
            | Piece::Branched { at, .. }
            | Piece::Jumped { at, .. }
            | Piece::Entered { at, .. } => {
                if at == wanted {
                    return place;
                }
            }
            _ => {}
        }
        place = place.wrapping_add(4 * piece_len(piece));
    }
    0
}

// The difference that the loop begins with.
fn difference(program: &Looping, byte: u8) -> i32 {
    i32::from(byte)
        .saturating_mul(program.times)
        .saturating_sub(program.less)
}

// The greatest byte below 64 whose difference is below a limit.
fn greatest(program: &Looping, limit: u16) -> u8 {
    let mut found = 0;
    for byte in 0..64 {
        if difference(program, byte) < i32::from(limit) {
            found = byte;
        }
    }
    found
}

// Runs an image and its versions, with the bytes next to the limit.
fn compare(rt: &impl Abort, alloc: Global, program: &Looping) -> Result<(), Fail> {
    let file = image_of(alloc, program)?;
    let view = view_of(alloc, &file)?;
    let candidates = candidates_of(alloc, program, &view)?;
    assert!(rt; !candidates.is_empty());
    for candidate in &candidates {
        let made = made_of(alloc, &view, candidate)?;
        let other = view_of(alloc, &made)?;
        graph_of(alloc, &other)?;
        let copy = copy_of(candidate, address_of(program.header));
        let last = greatest(program, candidate.limit);
        for byte in [1, last, last.saturating_add(1)] {
            let raw = run(alloc, &file, byte, copy)?;
            let own = run(alloc, &made, byte, copy)?;
            assert!(rt; raw.status.is_some() && !raw.met);
            assert_eq!(rt; own.status, raw.status);
            let first = difference(program, byte);
            assert_eq!(rt; own.met, 0 <= first && first < i32::from(candidate.limit));
        }
    }
    Ok(())
}

#[test]
fn versions_end_as_their_originals(rt: HostRuntime) -> Result<(), Fail> {
    let alloc = rt.alloc();
    compare(&rt, alloc, &down(alloc)?)?;
    compare(&rt, alloc, &up(alloc, 0)?)?;
    compare(&rt, alloc, &up(alloc, 8)?)?;
    compare(&rt, alloc, &past(alloc)?)?;
    compare(&rt, alloc, &taken(alloc)?)?;
    compare(&rt, alloc, &calling(alloc)?)
}
