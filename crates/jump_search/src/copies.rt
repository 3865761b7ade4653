//! Copies of an image in which each jump through a register that isn't listed ends the run.

use crate::places::stands_at;
use elf_image::ImageView;
use elf_patch::write_patched;
use elf_view::read_image;
use image_lower::lower;
use scale_base::{IMAGE_LIMIT, NoMemory, Patch, Range, Stop};
use std::alloc::Global;

/// The word of `ebreak`.
pub const EBREAK: u32 = 0x0010_0073;

// Adds the addresses of a range at which jumps through registers stand.
fn push_places(places: &mut Vec<u32>, view: &ImageView<'_>, range: Range) -> Result<(), NoMemory> {
    let _file = view.file();
    for k in 0..range.to.saturating_sub(range.from) / 4 {
        let at = range.from.wrapping_add(k.wrapping_mul(4));
        if stands_at(view, at) {
            places.push(at)?;
        }
    }
    Ok(())
}

/// The addresses at which jumps through registers stand.
pub fn places_of(alloc: Global, view: &ImageView<'_>) -> Result<Vec<u32>, NoMemory> {
    let mut places = Vec::new(alloc);
    for range in view.text() {
        push_places(&mut places, view, *range)?;
    }
    Ok(places)
}

// The image in which each jump through a register ends the run.
fn ended(alloc: Global, image: &[u8]) -> Result<Option<Vec<u8>>, NoMemory> {
    let view = match read_image(alloc, image) {
        Ok(view) => view,
        Err(Stop::Refused(_)) => return Ok(None),
        Err(Stop::Memory) => return Err(NoMemory),
    };
    let mut patches = Vec::new(alloc);
    for at in &places_of(alloc, &view)? {
        patches.push(Patch {
            at: *at,
            word: EBREAK,
        })?;
    }
    Ok(Some(write_patched(alloc, &view, &patches)?))
}

/// The image in which the jumps of a jump file are lowered, and all others end the run. None where it can't be lowered.
pub fn copy_of(alloc: Global, image: &[u8], jumps: &[u8]) -> Result<Option<Vec<u8>>, NoMemory> {
    if image.len() > IMAGE_LIMIT {
        return Ok(None);
    }
    match lower(alloc, image, jumps) {
        Ok((lowered, _)) => ended(alloc, &lowered),
        Err(Stop::Refused(_)) => Ok(None),
        Err(Stop::Memory) => Err(NoMemory),
    }
}
