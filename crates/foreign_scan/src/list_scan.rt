//! A scan of an image of other make, beside the original.

ghost use Rattle.std.specs.Prelude.{◌≡◌, None, IfOk, IfSome, IfNone};
ghost use Rattle.code_text.specs.Walk.{RiseStrictly};
ghost use Rattle.cost_theory.specs.Graph.{Loops};
ghost use Rattle.cost_theory.specs.Reached.{Code};
ghost use Rattle.foreign_scan.specs.Lists.{AreListsOf};
ghost use Rattle.foreign_scan.specs.Scanned.{IsFirstWhy};
ghost use Rattle.foreign_scan.specs.Scans.{IsScanOf, IsPatchedWell};

use crate::bytes::odd_byte;
use crate::counts::counter_limits;
use crate::key::read_key;
use crate::layout::is_laid_alike;
use crate::lists::GraphLists;
use crate::patches::bad_patch;
use crate::rows::first_unsound;
use crate::site::read_sites;
use crate::sites::{ForeignSites, show};
use elf_image::ImageView;
use scale_base::{NoMemory, Why};
use std::alloc::Global;

/// What a scan finds, or the first cause for which the image isn't known to be safe.
#[derive(Drop)]
pub enum Scanned {
    Found(ForeignSites),
    Fails(Why),
}

/// The first cause before those of stubs, if one of them holds.
fn why_by_words(
    alloc: Global,
    original: &ImageView<'_>,
    foreign: &ImageView<'_>,
    nodes: &[u32],
) -> Result<Option<Why>, NoMemory>
    requires { RiseStrictly nodes.now }
    ensures why { IfOk result (λ o. IfSome o (λ why. (code : Code) (l : Loops) → code.nodes ≡ nodes.now →
        IsFirstWhy original.now foreign.now code l why)) }
    ensures none { IfOk result (λ o. IfNone o ((code : Code) → code.nodes ≡ nodes.now → IsPatchedWell original.now foreign.now code)) }
{
    let Some(_key) = foreign.keyed() else {
        return Ok(Some(Why::NoKey));
    };
    let alike = is_laid_alike(alloc, original, foreign)?;
    if !alike {
        return Ok(Some(Why::Layout));
    }
    if let Some(at) = odd_byte(alloc, original, foreign)? {
        return Ok(Some(Why::Byte(at)));
    }
    match bad_patch(original, foreign, nodes) {
        Some(at) => Ok(Some(Why::Patch(at))),
        None => Ok(None),
    }
}

/// The fragments of the stubs, or the first one that isn't in its form.
fn scan_stubs(
    alloc: Global,
    original: &ImageView<'_>,
    foreign: &ImageView<'_>,
    lists: &GraphLists<'_>,
) -> Result<Scanned, NoMemory>
    requires { (code : Code) × (l : Loops) × AreListsOf original.now code l lists.now }
    ensures { IfOk result (λ scanned. (code : Code) (l : Loops) → AreListsOf original.now code l lists.now →
        IsPatchedWell original.now foreign.now code → IsScanOf original.now foreign.now code l scanned) }
{
    let key = read_key(alloc, foreign)?;
    let sites = read_sites(alloc, original, foreign, lists.nodes, &key)?;
    let limits = counter_limits(alloc, lists, &sites)?;
    match first_unsound(foreign, &limits, &sites) {
        Some(k) => Ok(Scanned::Fails(Why::Stub(lists.nodes[k]))),
        None => Ok(Scanned::Found(show(alloc, lists, sites)?)),
    }
}

/// Looks at an image beside the original, with the lists of the original's graph and loops.
pub fn scan_lists(
    alloc: Global,
    original: &ImageView<'_>,
    foreign: &ImageView<'_>,
    lists: &GraphLists<'_>,
) -> Result<Scanned, NoMemory>
    requires key { original.now.keyed_segment ≡ None }
    requires lists { (code : Code) × (l : Loops) × AreListsOf original.now code l lists.now }
    ensures { IfOk result (λ scanned. (code : Code) (l : Loops) → AreListsOf original.now code l lists.now →
        IsScanOf original.now foreign.now code l scanned) }
{
    match why_by_words(alloc, original, foreign, lists.nodes)? {
        Some(why) => Ok(Scanned::Fails(why)),
        None => scan_stubs(alloc, original, foreign, lists),
    }
}
