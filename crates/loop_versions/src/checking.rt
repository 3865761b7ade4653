//! Whether all pieces and sites fit.

ghost use Rattle.std.specs.Prelude.{◌≡◌, ◌≤◌, ◌<◌, ◌+◌, ◌*◌, ◌^◌, ◌==◌, ◌&&◌, count_by, length, true, Ok, Some, IfOk};
ghost use Rattle.std.specs.List.{list_all};
ghost use Rattle.scale_base.specs.Image.{image_of};
ghost use Rattle.image_lower.specs.FarJumps as far;
ghost use Rattle.loop_versions.specs.Fitting as fitting;

use crate::calls::stays_in;
use crate::fitting::{Block, fits_jump, is_free, is_right, origin_of, piece_len, stands_for};
use crate::pieces::{Piece, Site};
use elf_image::ImageView;
use image_lower::is_in_table;
use scale_base::NoMemory;
use std::alloc::Global;

/// Whether each of some pieces, which stand one behind the other from a place on, leads on to what stands for the next instructions.
pub fn are_right(
    alloc: Global,
    block: &Block<'_>,
    place: u32,
    others: &[Piece],
) -> Result<bool, NoMemory>
    requires few { length block.now.pieces.now ≤ 4096 }
    requires image { image_of block.now.view.now.file ≡ Ok block.now.view.now }
    requires room { place + 36 * length others.now < 2 ^ 32 }
    ensures { IfOk result (λ fit. fit ≡ fitting.are_right block.now.view.now block.now.pieces.now block.now.base place others.now) }
{
    match others {
        [] => Ok(true),
        [first, rest @ ..] => {
            if !block.view.is_text_word(origin_of(first)) {
                return Ok(false);
            }
            if !is_right(alloc, block, place, first)? {
                return Ok(false);
            }
            are_right(alloc, block, place + 4 * piece_len(first), rest)
        }
    }
}

/// Whether no more than seven bridges, guards and sites stand on each way from some pieces.
pub fn are_free(pieces: &[Piece], sites: &[Site], base: u32, place: u32, others: &[Piece]) -> bool
    requires few { length pieces.now ≤ 4096 }
    requires room { place + 36 * length others.now < 2 ^ 32 }
    ensures { result ≡ fitting.are_free pieces.now sites.now base place others.now }
{
    match others {
        [] => true,
        [first, rest @ ..] => {
            is_free(pieces, sites, base, 8, u64::from(place))
                && are_free(pieces, sites, base, place + 4 * piece_len(first), rest)
        }
    }
}

fn is_once(sites: &[Site], at: u32) -> bool
    ensures { result ≡ (count_by (λ o. o.at == at) sites.now == 1) }
{
    sites.iter().filter(|o| o.at == at).count() == 1
}

/// Whether a word of the text may become a jump to what stands for it.
pub fn is_site_right(
    alloc: Global,
    block: &Block<'_>,
    sites: &[Site],
    site: &Site,
) -> Result<bool, NoMemory>
    requires { length block.now.pieces.now ≤ 4096 }
    ensures { IfOk result (λ fit. fit ≡ fitting.is_site_right block.now.view.now block.now.pieces.now sites.now block.now.base site.now) }
{
    let leads = block.view.is_text_word(site.at)
        && !is_in_table(block.view, site.at)
        && is_once(sites, site.at)
        && stands_for(
            block.pieces,
            block.base,
            u64::from(site.to),
            u64::from(site.at),
        );
    if !leads {
        return Ok(false);
    }
    if !stays_in(
        alloc,
        block.pieces,
        block.base,
        u64::from(site.at),
        u64::from(site.to),
    )? {
        return Ok(false);
    }
    Ok(fits_jump(site.at, site.to))
}

fn are_sites_right(
    alloc: Global,
    block: &Block<'_>,
    sites: &[Site],
    others: &[Site],
) -> Result<bool, NoMemory>
    requires { length block.now.pieces.now ≤ 4096 }
    ensures { IfOk result (λ fit. fit ≡ list_all (fitting.is_site_right block.now.view.now block.now.pieces.now sites.now block.now.base)
        others.now) }
{
    match others {
        [] => Ok(true),
        [first, rest @ ..] => {
            if !is_site_right(alloc, block, sites, first)? {
                return Ok(false);
            }
            are_sites_right(alloc, block, sites, rest)
        }
    }
}

fn is_site_free(pieces: &[Piece], sites: &[Site], base: u32, at: u32) -> bool
    requires { length pieces.now ≤ 4096 }
    ensures { result ≡ fitting.is_free (fitting.ways pieces.now sites.now base) 8 at }
{
    is_free(pieces, sites, base, 8, u64::from(at))
}

fn are_sites_free(pieces: &[Piece], sites: &[Site], base: u32, others: &[Site]) -> bool
    requires { length pieces.now ≤ 4096 }
    ensures { result ≡ list_all (λ s. fitting.is_free (fitting.ways pieces.now sites.now base) 8 s.at) others.now }
{
    match others {
        [] => true,
        [first, rest @ ..] => {
            is_site_free(pieces, sites, base, first.at) && are_sites_free(pieces, sites, base, rest)
        }
    }
}

/// Whether the entry is a word of the text, and there is a piece.
fn are_there(view: &ImageView<'_>, pieces: &[Piece]) -> bool
    ensures { result ≡ fitting.are_there view.now pieces.now }
{
    view.is_text_word(view.entry()) && !pieces.is_empty()
}

/// Whether pieces and sites fit an image, with the first piece at a base.
#[tactic(auto, unfolding(crate::specs::Fitting::are_fit))]
pub fn are_fit(
    alloc: Global,
    view: &ImageView<'_>,
    pieces: &[Piece],
    sites: &[Site],
    base: u32,
) -> Result<bool, NoMemory>
    requires few { length pieces.now ≤ 4096 }
    requires image { image_of view.now.file ≡ Ok view.now }
    requires room { base + 147456 < 2 ^ 32 }
    ensures { IfOk result (λ fit. fit ≡ fitting.are_fit view.now pieces.now sites.now base) }
{
    if !are_there(view, pieces) {
        return Ok(false);
    }
    let block = Block { view, pieces, base };
    if !are_right(alloc, &block, base, pieces)? {
        return Ok(false);
    }
    if !are_sites_right(alloc, &block, sites, sites)? {
        return Ok(false);
    }
    Ok(are_free(pieces, sites, base, base, pieces) && are_sites_free(pieces, sites, base, sites))
}
