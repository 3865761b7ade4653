//! The layout of two images beside each other.

ghost use Rattle.std.specs.Prelude.{◌≡◌, ◌↔◌, ◌++◌, ◌∷◌, [], IfOk, OnOk, IsTrue, map, filter};
ghost use Rattle.scale_base.specs.Layout as rules;
ghost use Rattle.elf_image.specs.Segment.{segment_value};
ghost use Rattle.foreign_scan.specs.Scanned.{segment_place, segment_places, IsLaidAlike};

use elf_image::{ImageView, Segment};
use scale_base::{KEY_FLAG, NoMemory};
use std::alloc::Global;

/// The place, the length and the flags of a segment.
#[derive(Clone, Copy, PartialEq, Eq)]
pub struct SegmentPlace {
    pub from: u32,
    pub len: u32,
    pub flags: u32,
}

fn is_plain(segment: &Segment<'_>) -> bool
    ensures { result ≡ rules.is_plain_segment (segment_value segment.now) }
{
    segment.flags & KEY_FLAG == 0
}

fn place_of(segment: &Segment<'_>) -> SegmentPlace
    ensures { result ≡ segment_place (segment_value segment.now) }
{
    SegmentPlace {
        from: segment.from,
        len: segment.len,
        flags: segment.flags,
    }
}

/// Adds the place of a segment without the key at the end.
fn add_if_plain(places: &mut Vec<SegmentPlace>, segment: &Segment<'_>) -> Result<(), NoMemory>
    ensures { OnOk result (places.new.items ≡ places.old.items ++ map segment_place
        (filter rules.is_plain_segment (segment_value segment.now ∷ []))) }
{
    if is_plain(segment) {
        places.push(place_of(segment))?;
    }
    Ok(())
}

/// The places of the segments without the key.
fn plain_places(alloc: Global, view: &ImageView<'_>) -> Result<Vec<SegmentPlace>, NoMemory>
    ensures { IfOk result (λ places. places.items ≡ segment_places view.now) }
{
    let mut places = Vec::new(alloc);
    for k in 0..view.segment_count() {
        add_if_plain(&mut places, &view.segment(k))?;
    }
    Ok(places)
}

/// Whether the segments without the key are the original's.
fn has_same_segments(
    alloc: Global,
    original: &ImageView<'_>,
    foreign: &ImageView<'_>,
) -> Result<bool, NoMemory>
    ensures { IfOk result (λ same. IsTrue same ↔ (segment_places foreign.now ≡ segment_places original.now)) }
{
    let places = plain_places(alloc, original)?;
    let others = plain_places(alloc, foreign)?;
    Ok(others == places)
}

/// Whether the text ranges are the original's.
fn has_same_text(original: &ImageView<'_>, foreign: &ImageView<'_>) -> bool
    ensures { IsTrue result ↔ (foreign.now.text ≡ original.now.text) }
{
    foreign.text() == original.text()
}

/// Whether the entry, the segments without the key and the text ranges are the original's. Err only for want of memory.
pub fn is_laid_alike(
    alloc: Global,
    original: &ImageView<'_>,
    foreign: &ImageView<'_>,
) -> Result<bool, NoMemory>
    ensures { IfOk result (λ alike. IsTrue alike ↔ IsLaidAlike original.now foreign.now) }
{
    if foreign.entry() != original.entry() {
        return Ok(false);
    }
    if !has_same_text(original, foreign) {
        return Ok(false);
    }
    has_same_segments(alloc, original, foreign)
}
