//! The bytes that an image loads, and the least one that isn't the original's.

ghost use Rattle.std.specs.Prelude.{◌≡◌, ◌+◌, ◌<◌, ◌≤◌, ℕ, length, map, option_map, slice_get, Some, IfOk, IfSome, IfNone};
ghost use Rattle.scale_base.specs.Image as image;
ghost use Rattle.scale_base.specs.Image.{LoadSegment};
ghost use Rattle.scale_base.specs.Layout as rules;
ghost use Rattle.scale_base.specs.Layout.{layout_of};
ghost use Rattle.scale_base.specs.State.{word_at};
ghost use Rattle.elf_image.specs.Segment.{segment_value};
ghost use Rattle.foreign_scan.specs.Least.{IsLeastBadOf, IsFromUpTo, IsInRanges, file_range, is_odd_byte};
ghost use Rattle.foreign_scan.specs.Scanned.{IsOddByte, IsLeastAddress};

use elf_image::{ImageView, Segment};
use scale_base::{Keyed, NoMemory, Range, lesser};
use std::alloc::Global;

/// Whether the byte at this place of the file is loaded as zero.
fn is_zeroed(place: u64) -> bool
    ensures { result ≡ image.is_zeroed place }
{
    place >= 28 && place < 36 || place >= 44 && place < 46 || place >= 48 && place < 50
}

fn covers(segment: &Segment<'_>, at: u64) -> bool
    ensures { result ≡ image.covers at (segment_value segment.now) }
{
    u64::from(segment.from) <= at && at < u64::from(segment.from) + u64::from(segment.len)
}

/// The byte that a segment loads at one of its addresses.
fn segment_byte(segment: &Segment<'_>, at: u64) -> u8
    requires low { segment.now.from ≤ at }
    requires high { at < segment.now.from + segment.now.len }
    ensures { result ≡ image.segment_byte at (segment_value segment.now) }
{
    let offset = at - u64::from(segment.from);
    if offset < segment.file.len() as u64 && !is_zeroed(u64::from(segment.file_at) + offset) {
        segment.file[offset as usize]
    } else {
        0
    }
}

/// The byte that an image loads at an address, 0 where no segment is.
pub fn loaded(view: &ImageView<'_>, at: u64) -> u8
    ensures { result ≡ image.loaded_byte view.now at }
{
    for k in 0..view.segment_count() {
        let segment = view.segment(k);
        if covers(&segment, at) {
            return segment_byte(&segment, at);
        }
    }
    0
}

/// The word that an image loads at an address.
pub fn word(view: &ImageView<'_>, at: u32) -> u32
    ensures { result ≡ word_at (image.loaded_byte view.now) at }
{
    let at = u64::from(at);
    u32::from_le_bytes([
        loaded(view, at),
        loaded(view, at + 1),
        loaded(view, at + 2),
        loaded(view, at + 3),
    ])
}

/// Whether an address lies in a keyed segment.
fn is_in_key(keyed: Option<Keyed>, at: u32) -> bool
    ensures { result ≡ rules.in_option at (option_map (λ k. k.range) keyed) }
{
    match keyed {
        Some(keyed) => keyed.range.from <= at && at < keyed.range.to,
        None => false,
    }
}

/// Whether an address lies in the keyed segment of an image.
pub fn is_keyed(view: &ImageView<'_>, at: u32) -> bool
    ensures { result ≡ rules.is_keyed (layout_of view.now) at }
{
    is_in_key(view.keyed(), at)
}

/// Whether an address lies in the text.
fn is_in_text(view: &ImageView<'_>, at: u32) -> bool
    ensures { result ≡ rules.in_text (layout_of view.now) at }
{
    let _file = view.file();
    view.is_text_word(at - at % 4)
}

/// Whether the byte at an address outside the text and the keyed segment isn't the original's.
fn is_odd(original: &ImageView<'_>, foreign: &ImageView<'_>, at: u32) -> bool
    ensures { result ≡ is_odd_byte original.now foreign.now at }
{
    loaded(foreign, u64::from(at)) != loaded(original, u64::from(at))
        && !is_keyed(foreign, at)
        && !is_in_text(original, at)
}

/// The least of these addresses with such a byte.
fn odd_from(original: &ImageView<'_>, foreign: &ImageView<'_>, from: u32, end: u32) -> Option<u32>
    ensures { IsLeastBadOf (is_odd_byte original.now foreign.now) (IsFromUpTo from end) result }
{
    for at in from..end {
        if is_odd(original, foreign, at) {
            return Some(at);
        }
    }
    None
}

/// The addresses of the file part of segment `k`.
fn part_of(view: &ImageView<'_>, k: usize) -> Range
    requires { k < length view.now.segments }
    ensures { (s : LoadSegment) → slice_get view.now.segments k ≡ Some s → result ≡ file_range s }
{
    let _file = view.file();
    let segment = view.segment(k);
    Range {
        from: segment.from,
        to: segment.from + segment.file.len() as u32,
    }
}

/// The addresses of the file parts of all segments.
fn file_parts(alloc: Global, view: &ImageView<'_>) -> Result<Vec<Range>, NoMemory>
    ensures { IfOk result (λ parts. parts.items ≡ map file_range view.now.segments) }
{
    let mut parts = Vec::new(alloc);
    for k in 0..view.segment_count() {
        parts.push(part_of(view, k))?;
    }
    Ok(parts)
}

/// The least of the addresses in these ranges with such a byte.
fn odd_among(original: &ImageView<'_>, foreign: &ImageView<'_>, ranges: &[Range]) -> Option<u32>
    ensures { IsLeastBadOf (is_odd_byte original.now foreign.now) (IsInRanges ranges.now (length ranges.now)) result }
{
    let mut least = None;
    for range in ranges {
        least = lesser(least, odd_from(original, foreign, range.from, range.to));
    }
    least
}

/// The least address outside the text and the keyed segment at which the byte isn't the original's. All others are in no file part, and 0 in both. Err only for
/// want of memory.
pub fn odd_byte(
    alloc: Global,
    original: &ImageView<'_>,
    foreign: &ImageView<'_>,
) -> Result<Option<u32>, NoMemory>
    ensures some { IfOk result (λ least. IfSome least (λ at. IsLeastAddress (IsOddByte original.now foreign.now) at)) }
    ensures none { IfOk result (λ least. IfNone least ((a : ℕ) → IsOddByte original.now foreign.now a → ⊥)) }
{
    let parts = file_parts(alloc, foreign)?;
    let others = file_parts(alloc, original)?;
    let here = odd_among(original, foreign, &parts);
    let there = odd_among(original, foreign, &others);
    Ok(lesser(here, there))
}
