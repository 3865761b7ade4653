//! The loop file that is proposed for a version, with the reasons why some of its loops are copies. Nothing is promised of it.

use crate::checking::{OPEN_BOUND, VersionNotes};
use copy_checks::{CopyBody, CopyReason, copy_table};
use loop_file::{LoopNote, RangeList};
use loop_forest::LoopTree;
use scale_base::NoMemory;
use std::alloc::{AllocError, Global};
use std::fmt::Write;

/// So many loops times nodes are looked at.
const MOST_WORK: usize = 50_000_000;

/// A bound for a loop, whether it is counted, and the reason for it, where that isn't the draft.
#[derive(Drop)]
struct LoopBound {
    bound: u32,
    counted: bool,
    reason: Option<CopyReason>,
}

/// A loop file, and by loop the reason for its bound.
#[derive(Drop)]
pub struct Proposed {
    pub text: String,
    pub reasons: Vec<Option<CopyReason>>,
}

// The number of the loop of the original whose header the one of loop k stands for.
fn origin_of(version: &VersionNotes<'_>, tree: &LoopTree, k: usize) -> Option<usize> {
    if k >= tree.loop_count() {
        return None;
    }
    let header = version.code.meant.get(tree.header(k))?.text_at;
    for n in 0..version.olds.count() {
        if version.olds.note(n).header == header {
            return Some(n);
        }
    }
    None
}

// Loop k as a copy of loop n of the original.
fn copied(
    alloc: Global,
    version: &VersionNotes<'_>,
    tree: &LoopTree,
    k: usize,
    n: usize,
) -> Result<Option<LoopBound>, NoMemory> {
    if k >= tree.loop_count() || n >= version.olds.count() {
        return Ok(None);
    }
    let old = version.olds.note(n);
    let copy = CopyBody {
        body: tree.body(k),
        header: tree.header(k),
        old,
    };
    let table = copy_table(alloc, &version.code, &copy)?;
    Ok(Some(LoopBound {
        bound: old.bound,
        counted: old.counted,
        reason: Some(CopyReason { number: n, table }),
    }))
}

// Loop k with the bound of its draft, if that has one which is no greater than that of the loop of the original that it stands for.
fn drafted(version: &VersionNotes<'_>, k: usize, origin: Option<usize>) -> Option<LoopBound> {
    if k >= version.drafted.count() {
        return None;
    }
    let own = version.drafted.note(k);
    if own.bound == OPEN_BOUND {
        return None;
    }
    let mut counted = own.counted;
    if let Some(n) = origin {
        if n < version.olds.count() {
            let old = version.olds.note(n);
            if old.bound < own.bound {
                return None;
            }
            counted = old.counted;
        }
    }
    Some(LoopBound {
        bound: own.bound,
        counted,
        reason: None,
    })
}

// Loop k with a bound, if one is found.
fn find_bound(
    alloc: Global,
    version: &VersionNotes<'_>,
    tree: &LoopTree,
    k: usize,
) -> Result<Option<LoopBound>, NoMemory> {
    let origin = origin_of(version, tree, k);
    if let Some(found) = drafted(version, k, origin) {
        return Ok(Some(found));
    }
    match origin {
        Some(n) => copied(alloc, version, tree, k, n),
        None => Ok(None),
    }
}

fn push_ranges(text: &mut String, ranges: &RangeList) -> Result<(), AllocError> {
    for k in 0..ranges.count() {
        let range = ranges.get(k);
        let from = range.from;
        let to = range.to;
        if k > 0 {
            text.push_str(", ")?;
        }
        write!(text, "[{from}, {to}]")?;
    }
    Ok(())
}

// Adds a loop with the header and the ranges of a note.
fn push_loop(text: &mut String, note: &LoopNote, found: &LoopBound) -> Result<(), AllocError> {
    let header = note.header;
    let bound = found.bound;
    write!(text, "\n[[loop]]\nheader = {header}\nranges = [")?;
    push_ranges(text, &note.ranges)?;
    write!(text, "]\nbound = {bound}\n")?;
    if found.counted {
        text.push_str("counted = true\n")?;
    }
    Ok(())
}

/// What is proposed for a version with a tree of its drafted loops. None where a loop has neither a drafted bound nor one of the original.
pub fn propose(
    alloc: Global,
    version: &VersionNotes<'_>,
    tree: &LoopTree,
) -> Result<Option<Proposed>, NoMemory> {
    let nodes = version.code.graph.node_count();
    if tree.loop_count().saturating_mul(nodes) > MOST_WORK {
        return Ok(None);
    }
    let mut proposed = Proposed {
        text: String::from_str(alloc, "version = 1\n")?,
        reasons: Vec::new(alloc),
    };
    for k in 0..version.drafted.count() {
        let Some(found) = find_bound(alloc, version, tree, k)? else {
            return Ok(None);
        };
        push_loop(&mut proposed.text, version.drafted.note(k), &found)?;
        proposed.reasons.push(found.reason)?;
    }
    Ok(Some(proposed))
}
