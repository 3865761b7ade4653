//! The versions of a program's loops.

ghost use Rattle.std.specs.Prelude.{◌≡◌, ℕ, ◌≤◌, ◌+◌, length, find, IfOk, IfSome, OnOk, All};
ghost use Rattle.loop_versions.specs.declared.pieces.Piece.TheVariants.{Guard};
ghost use Rattle.versioned_images.specs.Versions.{IsVersionOf, is_choice};

use crate::making::versioned;
use crate::proposing::{candidates_of, order_of};
use crate::versions::{Made, Version};
use elf_image::ImageView;
use elf_view::read_image;
use loop_versions::{Piece, Site};
use scale_base::{FILE_LIMIT, IMAGE_LIMIT, NoMemory, Stop};
use std::alloc::Global;
use version_search::Candidate;

/// As many versions are given at most.
const MOST_VERSIONS: usize = 8;

fn is_choice(piece: &Piece) -> bool
    ensures { result ≡ is_choice piece.now }
{
    matches!(piece, Piece::Guard { .. })
}

/// The first guard of some pieces.
fn first_choice(pieces: &[Piece]) -> Option<Piece>
    ensures { result ≡ find is_choice pieces.now }
{
    match pieces {
        [] => None,
        [first, others @ ..] => {
            if is_choice(first) {
                Some(*first)
            } else {
                first_choice(others)
            }
        }
    }
}

/// A version with what is told of it by its guard, and its code.
fn told(choice: &Piece, made: Made, pieces: Vec<Piece>, sites: Vec<Site>) -> Option<Version>
    ensures told { IfSome result (λ version. (to : ℕ) × (choice.now ≡ Guard version.header version.larger version.smaller version.limit
        to)) }
    ensures made { IfSome result (λ version. (version.file.items ≡ made.file.items) × (version.words ≡ made.words) × (version.base ≡ made.base)) }
    ensures code { IfSome result (λ version. (version.pieces ≡ pieces) × (version.sites ≡ sites)) }
{
    match *choice {
        Piece::Guard {
            at,
            larger,
            smaller,
            limit,
            ..
        } => Some(Version {
            header: at,
            larger,
            smaller,
            limit: u32::from(limit),
            words: made.words,
            base: made.base,
            pieces,
            sites,
            file: made.file,
        }),
        _ => None,
    }
}

/// The version that is made of a candidate.
fn version_of(
    alloc: Global,
    view: &ImageView<'_>,
    candidate: &Candidate,
) -> Result<Option<Version>, NoMemory>
    ensures { IfOk result (λ made. IfSome made (IsVersionOf view.now.file)) }
{
    let _file = view.file();
    let Some(choice) = first_choice(&candidate.pieces) else {
        return Ok(None);
    };
    match versioned(alloc, view, &candidate.pieces, &candidate.sites)? {
        Some(made) => {
            let pieces = candidate.pieces.to_vec(alloc)?;
            let sites = candidate.sites.to_vec(alloc)?;
            Ok(told(&choice, made, pieces, sites))
        }
        None => Ok(None),
    }
}

/// Adds the version that is made of the candidate with a number, if one is.
fn push_version(
    alloc: Global,
    view: &ImageView<'_>,
    candidates: &[Candidate],
    i: usize,
    found: &mut Vec<Version>,
) -> Result<(), NoMemory>
    requires { All (IsVersionOf view.now.file) found.old.items }
    ensures found { OnOk result (All (IsVersionOf view.now.file) found.new.items) }
    ensures more { OnOk result (length found.new.items ≤ length found.old.items + 1) }
{
    let Some(candidate) = candidates.get(i) else {
        return Ok(());
    };
    if let Some(version) = version_of(alloc, view, candidate)? {
        found.push(version)?;
    }
    Ok(())
}

/// The versions that are made of an image's candidates.
fn versions_in(alloc: Global, view: &ImageView<'_>, loops: &[u8]) -> Result<Vec<Version>, NoMemory>
    ensures few { IfOk result (λ found. length found.items ≤ 8) }
    ensures found { IfOk result (λ found. All (IsVersionOf view.now.file) found.items) }
{
    let candidates = candidates_of(alloc, view, loops)?;
    let mut found = Vec::new(alloc);
    for (_, i) in &order_of(alloc, &candidates)? {
        if found.len() >= MOST_VERSIONS {
            break;
        }
        push_version(alloc, view, &candidates, *i, &mut found)?;
    }
    Ok(found)
}

/// Images in which code of a program is there twice, at most 8, by its image and its loop file: first those of what runs behind a read, then
/// of the loops that may run most often. None where the image or the loop file is refused. Which code is taken, and with which limits, isn't
/// promised.
pub fn find_versions(alloc: Global, image: &[u8], loops: &[u8]) -> Result<Vec<Version>, NoMemory>
    requires image { length image.now ≤ IMAGE_LIMIT }
    requires loops { length loops.now ≤ FILE_LIMIT }
    ensures few { IfOk result (λ found. length found.items ≤ 8) }
    ensures found { IfOk result (λ found. All (IsVersionOf image.now) found.items) }
{
    match read_image(alloc, image) {
        Ok(view) => versions_in(alloc, &view, loops),
        Err(Stop::Refused(_)) => Ok(Vec::new(alloc)),
        Err(Stop::Memory) => Err(NoMemory),
    }
}
