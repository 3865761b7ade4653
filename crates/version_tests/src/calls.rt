//! Runs of images with inlined calls: they give what the originals give. And pieces of such calls that don't fit.

use crate::calling::{
    BASE, Calling, bridge, entered, leaf, left, nested, placed, returned, site, turning, twice,
};
use crate::programs::{address_of, assembled, graph_of, view_of};
use crate::runs::started;
use elf_image::ImageView;
use loop_versions::{Piece, Site, piece_len};
use rv_machine::{StepEnd, step};
use scale_base::{Class, Stepped};
use std::alloc::Global;
use std::process::Abort;
use std::test::Fail;
use versioned_images::versioned;

/// What a run gives: its status, or none where it doesn't end so; what it wrote; the classes of the steps that stand for steps of the
/// original; and how many others there were.
#[derive(Drop)]
struct Given {
    status: Option<u8>,
    output: Vec<u8>,
    classes: Vec<Class>,
    extra: usize,
}

// The bytes of the first instructions of a piece that stand for none of the text.
fn extra_bytes(piece: &Piece) -> u32 {
    match *piece {
        Piece::Bridge { .. } => 4,
        Piece::Guard { .. } => 36,
        Piece::Entered { .. } => 8,
        _ => 0,
    }
}

// Whether the instruction at an address stands for none of the text.
fn is_extra(pieces: &[Piece], pc: u32) -> bool {
    let mut place = BASE;
    for piece in pieces {
        if place <= pc && pc < place.wrapping_add(extra_bytes(piece)) {
            return true;
        }
        place = place.wrapping_add(4 * piece_len(piece));
    }
    false
}

impl Given {
    fn push(&mut self, is_extra: bool, stepped: &Stepped) -> Result<(), Fail> {
        if is_extra {
            self.extra = self.extra.saturating_add(1);
        } else {
            self.classes.push(stepped.class)?;
        }
        Ok(())
    }
}

// Runs an image with a byte; the steps at a site, and those of these pieces that stand for none, are others.
fn run(
    alloc: Global,
    file: &[u8],
    byte: u8,
    pieces: &[Piece],
    sites: &[Site],
) -> Result<Given, Fail> {
    let view = view_of(alloc, file)?;
    let mut machine = started(alloc, &view, byte)?;
    let mut given = Given {
        status: None,
        output: Vec::new(alloc),
        classes: Vec::new(alloc),
        extra: 0,
    };
    for _ in 0..4000 {
        let pc = machine.pc;
        let extra = is_extra(pieces, pc) || sites.iter().any(|site| site.at == pc);
        match step(&mut machine) {
            StepEnd::Went(stepped) => given.push(extra, &stepped)?,
            StepEnd::Exited(stepped, status) => {
                given.push(extra, &stepped)?;
                given.status = Some(status);
                break;
            }
            StepEnd::Trapped(_) => break,
        }
    }
    given.output.extend_from_slice(&machine.world.output)?;
    Ok(given)
}

fn made_of(alloc: Global, view: &ImageView<'_>, pieces: &[Piece]) -> Result<Vec<u8>, Fail> {
    match versioned(alloc, view, pieces, &[site()])? {
        Some(made) => Ok(made.file),
        None => Err("the pieces fit".into()),
    }
}

// Runs a program and its image with the copy, with bytes on both sides of the guard's limit.
fn compare(rt: &impl Abort, alloc: Global, program: &Calling) -> Result<(), Fail> {
    let file = assembled(alloc, &program.lines)?;
    let view = view_of(alloc, &file)?;
    let pieces = placed(alloc, &program.pieces)?;
    let made = made_of(alloc, &view, &pieces)?;
    for byte in [1, 15, 16, 40] {
        let raw = run(alloc, &file, byte, &[], &[])?;
        let own = run(alloc, &made, byte, &pieces, &[site()])?;
        assert!(rt; raw.status.is_some() && raw.output.len() == 1 && raw.extra == 0);
        assert_eq!(rt; own.status, raw.status);
        assert!(rt; own.output == raw.output);
        assert!(rt; own.classes == raw.classes);
        assert!(rt; own.extra > 0);
    }
    Ok(())
}

// The same, where the code with the copy is accepted.
fn compare_accepted(rt: &impl Abort, alloc: Global, program: &Calling) -> Result<(), Fail> {
    let file = assembled(alloc, &program.lines)?;
    let view = view_of(alloc, &file)?;
    let made = made_of(alloc, &view, &placed(alloc, &program.pieces)?)?;
    let other = view_of(alloc, &made)?;
    graph_of(alloc, &other)?;
    compare(rt, alloc, program)
}

#[test]
fn inlined_calls_give_what_calls_give(rt: HostRuntime) -> Result<(), Fail> {
    let alloc = rt.alloc();
    compare_accepted(&rt, alloc, &leaf(alloc)?)?;
    compare_accepted(&rt, alloc, &nested(alloc)?)?;
    compare_accepted(&rt, alloc, &twice(alloc)?)?;
    compare_accepted(&rt, alloc, &turning(alloc)?)
}

#[test]
fn inlined_calls_may_be_left(rt: HostRuntime) -> Result<(), Fail> {
    let alloc = rt.alloc();
    compare(&rt, alloc, &left(alloc)?)
}

// A program with another piece in place of the one with a number, or behind the last one.
fn with(alloc: Global, program: &Calling, number: usize, piece: Piece) -> Result<Calling, Fail> {
    let mut pieces = Vec::from_slice(alloc, &program.pieces)?;
    if number < pieces.len() {
        pieces[number] = piece;
    } else {
        pieces.push(piece)?;
    }
    Ok(Calling {
        lines: Vec::from_slice(alloc, &program.lines)?,
        pieces,
    })
}

// Whether its pieces fit then, with these sites.
fn fits(
    alloc: Global,
    program: &Calling,
    number: usize,
    piece: Piece,
    sites: &[Site],
) -> Result<bool, Fail> {
    let file = assembled(alloc, &program.lines)?;
    let view = view_of(alloc, &file)?;
    let other = with(alloc, program, number, piece)?;
    let pieces = placed(alloc, &other.pieces)?;
    Ok(versioned(alloc, &view, &pieces, sites)?.is_some())
}

#[test]
fn calls_and_returns_are_of_the_text(rt: HostRuntime) -> Result<(), Fail> {
    let alloc = rt.alloc();
    let leaf = leaf(alloc)?;
    // a call leads to what it calls, by a `jal x1`
    assert!(rt; fits(alloc, &leaf, 2, entered(7, 6, 8), &[site()])?);
    assert!(rt; !fits(alloc, &leaf, 2, entered(7, 7, 8), &[site()])?);
    assert!(rt; !fits(alloc, &leaf, 3, entered(8, 6, 8), &[site()])?);
    // where nothing is inlined, what it calls is in the text
    assert!(rt; fits(alloc, &left(alloc)?, 2, entered(7, 6, 6), &[site()])?);
    assert!(rt;
        fits(
            alloc,
            &left(alloc)?,
            2,
            entered(7, address_of(19), address_of(19)),
            &[site()]
        )?
    );
    // a return leads behind the call that it is in, by a `jalr x0, 0(x1)`
    assert!(rt; fits(alloc, &leaf, 7, returned(20, address_of(8)), &[site()])?);
    assert!(rt; !fits(alloc, &leaf, 7, returned(20, 4), &[site()])?);
    assert!(rt; !fits(alloc, &leaf, 6, returned(19, 3), &[site()])?);
    Ok(())
}

#[test]
fn returns_are_in_their_calls(rt: HostRuntime) -> Result<(), Fail> {
    let alloc = rt.alloc();
    // outside of any call
    assert!(rt; !fits(alloc, &leaf(alloc)?, 2, entered(7, 6, 6), &[site()])?);
    assert!(rt; !fits(alloc, &leaf(alloc)?, 2, entered(7, 6, 7), &[site()])?);
    // behind another call
    let twice = twice(alloc)?;
    assert!(rt; fits(alloc, &twice, 8, returned(21, 3), &[site()])?);
    assert!(rt; !fits(alloc, &twice, 8, returned(21, 5), &[site()])?);
    // behind the outer call, and not the inner one
    let nested = nested(alloc)?;
    assert!(rt; fits(alloc, &nested, 13, returned(26, 9), &[site()])?);
    assert!(rt; !fits(alloc, &nested, 13, returned(26, 3), &[site()])?);
    // to a place that is in the call still
    let inside = back_inside(alloc)?;
    assert!(rt; fits(alloc, &inside, 7, returned(20, 3), &[site()])?);
    assert!(rt; !fits(alloc, &inside, 7, returned(20, 8), &[site()])?);
    Ok(())
}

// The copy of the leaf holds a bridge to the word behind the call.
fn back_inside(alloc: Global) -> Result<Calling, Fail> {
    let longer = with(alloc, &leaf(alloc)?, 2, entered(7, 6, 9))?;
    with(alloc, &longer, 8, bridge(8, 3))
}

#[test]
fn no_way_leads_into_a_call_but_the_call(rt: HostRuntime) -> Result<(), Fail> {
    let alloc = rt.alloc();
    let leaf = leaf(alloc)?;
    assert!(rt; fits(alloc, &leaf, 8, bridge(19, address_of(19)), &[site()])?);
    assert!(rt; !fits(alloc, &leaf, 8, bridge(19, 6), &[site()])?);
    // from the copy of one call into that of another
    let twice = twice(alloc)?;
    assert!(rt; fits(alloc, &twice, 7, bridge(20, address_of(20)), &[site()])?);
    assert!(rt; !fits(alloc, &twice, 7, bridge(20, 9), &[site()])?);
    // from the text
    let into = Site {
        at: address_of(19),
        to: BASE.wrapping_add(4 * 16),
    };
    assert!(rt; !fits(alloc, &leaf, 2, entered(7, 6, 8), &[site(), into])?);
    Ok(())
}
