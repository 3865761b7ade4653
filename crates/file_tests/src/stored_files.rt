//! The bytes of stored images.

use crate::fixtures::{PLAIN, THREE_ENTRIES, view_of};
use elf_image::ImageView;
use elf_patch::{stub_base, write_image};
use scale_base::{Keyed, Patch, Range};
use std::alloc::Global;
use std::process::Abort;
use std::test::Fail;

/// A place of a stored file, and the part there.
type Part = (usize, &'static [u8]);

/// Expects that parts stand at places of a stored file, of which the last one ends it.
fn expect_parts(rt: &impl Abort, stored: &[u8], parts: &[Part]) {
    for (at, part) in parts {
        let found = match stored.get(*at..) {
            Some(rest) => rest.starts_with(part),
            None => false,
        };
        assert!(rt; found, "at {at}");
    }
}

static PLAIN_PARTS: [Part; 4] = [
    (28, &[0, 16, 0, 0]),
    (44, &[2, 0]),
    (84, &[19, 5, 112, 0, 147, 8, 208, 5, 115, 0, 0, 0]),
    (
        4096,
        &[
            1, 0, 0, 0, 84, 0, 0, 0, 0, 0, 1, 0, 0, 0, 1, 0, 12, 0, 0, 0, 12, 0, 0, 0, 5, 0, 0, 0,
            4, 0, 0, 0, 1, 0, 0, 0, 0, 16, 0, 0, 0, 16, 1, 0, 0, 0, 0, 0, 0, 0, 0, 0, 0, 0, 0, 0,
            5, 0, 16, 0, 0, 16, 0, 0,
        ],
    ),
];

/// What is stored of an image with an empty block.
fn stored_plain(rt: &impl Abort, alloc: Global, view: &ImageView<'_>) -> Result<Vec<u8>, Fail> {
    assert!(rt; view.file().len() <= 4_194_304);
    assert!(rt; view.keyed().is_none());
    let base = stub_base(view, 0);
    assert_eq!(rt; base, 0x11000);
    Ok(write_image(alloc, view, &[], base, &[], 0)?)
}

#[test]
fn stores_an_image_with_an_empty_block(rt: HostRuntime) -> Result<(), Fail> {
    let view = view_of(rt.alloc(), PLAIN)?;
    let stored = stored_plain(&rt, rt.alloc(), &view)?;
    assert_eq!(rt; stored.len(), 4160);
    expect_parts(&rt, &stored, &PLAIN_PARTS);
    expect_key(&rt, rt.alloc(), &stored)
}

/// An empty keyed segment at 0x11000, for a start at level 0.
const KEY: Keyed = Keyed {
    range: Range {
        from: 0x11000,
        to: 0x11000,
    },
    start: 0,
};

fn expect_key(rt: &impl Abort, alloc: Global, stored: &[u8]) -> Result<(), Fail> {
    let view = view_of(alloc, stored)?;
    assert_eq!(rt; view.keyed(), Some(KEY));
    Ok(())
}

/// The table of the stored image of `THREE_ENTRIES` with a block of one word and the starting level 2 ends the file.
static PATCHED_PARTS: [Part; 3] = [
    (148, &[19, 5, 112, 0, 19, 0, 0, 0, 115, 0, 0, 0]),
    (4096, &[1, 2, 3, 4]),
    (
        4100,
        &[
            0, 0, 0, 0, 52, 0, 0, 0, 0, 0, 0, 0, 0, 0, 0, 0, 96, 0, 0, 0, 96, 0, 0, 0, 4, 0, 0, 0,
            4, 0, 0, 0, 1, 0, 0, 0, 148, 0, 0, 0, 0, 0, 1, 0, 0, 0, 1, 0, 12, 0, 0, 0, 12, 0, 0, 0,
            5, 0, 0, 0, 4, 0, 0, 0, 1, 0, 0, 0, 0, 16, 0, 0, 0, 16, 1, 0, 2, 0, 0, 0, 4, 0, 0, 0,
            4, 0, 0, 0, 5, 0, 16, 0, 0, 16, 0, 0, 1, 0, 0, 0, 0, 0, 0, 0, 0, 0, 2, 0, 0, 0, 2, 0,
            0, 0, 0, 0, 16, 0, 0, 0, 6, 0, 0, 0, 4, 0, 0, 0,
        ],
    ),
];

/// What is stored of an image with a patch and a block.
fn stored_patched(rt: &impl Abort, alloc: Global, view: &ImageView<'_>) -> Result<Vec<u8>, Fail> {
    assert!(rt; view.file().len() <= 4_194_304);
    assert!(rt; view.keyed().is_none());
    assert!(rt; view.is_text_word(0x10004));
    let base = stub_base(view, 4);
    assert_eq!(rt; base, 0x11000);
    let patch = Patch {
        at: 0x10004,
        word: 0x0000_0013,
    };
    Ok(write_image(alloc, view, &[patch], base, &[1, 2, 3, 4], 2)?)
}

#[test]
fn stores_a_patch_and_a_block(rt: HostRuntime) -> Result<(), Fail> {
    let view = view_of(rt.alloc(), THREE_ENTRIES)?;
    let stored = stored_patched(&rt, rt.alloc(), &view)?;
    assert_eq!(rt; stored.len(), 4228);
    expect_parts(&rt, &stored, &PATCHED_PARTS);
    Ok(())
}
