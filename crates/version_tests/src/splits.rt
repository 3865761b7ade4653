//! Runs of images in which code that is entered at two places is split: they end as those of the originals.

use crate::programs::{Looping, add, addi, address_of, branch, graph_of, image_of, view_of};
use crate::runs::status_of;
use elf_image::ImageView;
use image_maker::Line;
use scale_base::BranchOp;
use std::alloc::Global;
use std::test::Fail;
use version_search::{Split, find_split};
use versioned_images::versioned;

// A program that turns between two words, and is led to the second one first where the byte is below 10.
fn two_entries(alloc: Global) -> Result<Looping, Fail> {
    let lines = [
        addi(6, 0, 0),
        addi(7, 0, 10),
        branch(BranchOp::Blt, 5, 7, 2),
        Line::Label(1),
        addi(6, 6, 3),
        Line::Label(2),
        add(6, 6, 5),
        addi(5, 5, -1),
        branch(BranchOp::Bne, 5, 0, 1),
    ];
    Ok(Looping {
        lines: Vec::from_slice(alloc, &lines)?,
        functions: Vec::new(alloc),
        header: 9,
        from: 9,
        to: 13,
        times: 1,
        less: 0,
    })
}

// The split of the program's part.
fn split_of(alloc: Global, view: &ImageView<'_>) -> Result<Split, Fail> {
    let graph = graph_of(alloc, view)?;
    let mut parts = Vec::new(alloc);
    parts.push(Vec::from_slice(alloc, &[address_of(9), address_of(10)])?)?;
    match find_split(alloc, view, &graph, &[], &parts)? {
        Some(split) => Ok(split),
        None => Err("the part can be split".into()),
    }
}

#[test]
fn splits_end_as_their_originals(rt: HostRuntime) -> Result<(), Fail> {
    let alloc = rt.alloc();
    let file = image_of(alloc, &two_entries(alloc)?)?;
    let view = view_of(alloc, &file)?;
    let split = split_of(alloc, &view)?;
    assert_eq!(rt; split.parts, 1);
    let Some(made) = versioned(alloc, &view, &split.pieces, &split.sites)? else {
        return Err("the pieces fit".into());
    };
    for byte in [1, 9, 10, 11, 63] {
        let raw = status_of(alloc, &file, byte)?;
        assert!(rt; raw.is_some());
        assert_eq!(rt; status_of(alloc, &made.file, byte)?, raw);
    }
    Ok(())
}
